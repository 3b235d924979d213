//! What a worker passes before a search.

/// What stands before each search of a worker for a pair that it has taken. The worker passes it while it holds no turn, so a
/// gate may count, or let workers wait for one another.
pub trait Gate: Sync {
    /// The worker is about to search for the pair; both are numbers from 0 on.
    fn pass(&self, worker: u32, pair: u32);
}

/// A gate that lets everyone through.
pub struct OpenGate;

impl Gate for OpenGate {
    fn pass(&self, _worker: u32, _pair: u32) {}
}

//! The calls of a device in memory, of which some are to fail.

ghost use Rattle.std.specs.Prelude.{◌≡◌, ◌+◌, ◌-◌, ◌^◌, ◌↔◌, min, IsTrue, Contains};

/// Numbers the calls from 1, knows which of them fail, and counts the failures.
#[derive(Drop)]
pub(crate) struct Calls {
    /// The numbers of the calls that fail.
    pub(crate) fail: Vec<u64>,
    /// The number of the last call. It stops at 2^64 - 1.
    pub(crate) number: u64,
    /// How many failures there were. It stops at 2^64 - 1.
    pub(crate) faults: u64,
}

impl Calls {
    /// No calls so far.
    pub(crate) fn new(fail: Vec<u64>) -> Calls
        ensures fail { result.fail ≡ fail }
        ensures number { result.number ≡ 0 }
        ensures faults { result.faults ≡ 0 }
    {
        Calls {
            fail,
            number: 0,
            faults: 0,
        }
    }

    /// Begins a call, and answers whether it is one that fails.
    pub(crate) fn begin(&mut self) -> bool
        ensures fail { self.new.fail ≡ self.old.fail }
        ensures number { self.new.number ≡ min (self.old.number + 1) (2 ^ 64 - 1) }
        ensures faults { self.new.faults ≡ self.old.faults }
        ensures listed { IsTrue result ↔ Contains self.old.fail.items self.new.number }
    {
        self.number = self.number.saturating_add(1);
        self.fail.contains(&self.number)
    }

    /// Counts a failure.
    pub(crate) fn count_failure(&mut self)
        ensures fail { self.new.fail ≡ self.old.fail }
        ensures number { self.new.number ≡ self.old.number }
        ensures faults { self.new.faults ≡ min (self.old.faults + 1) (2 ^ 64 - 1) }
    {
        self.faults = self.faults.saturating_add(1);
    }
}

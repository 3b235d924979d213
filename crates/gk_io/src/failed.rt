//! What a device answers that failed.

ghost use Rattle.std.specs.Prelude.{◌≡◌};

use gk_base::Stop;

/// A shelf could not find or read a file, or a sink could not take bytes.
///
/// It comes only from a call in which the count of failures of that device rose. It says nothing of why: what the system
/// answers is not kept. What such a call leaves is said at each call of `Shelf` and `Sink`.
#[derive(Clone, Copy, Debug, PartialEq, Eq)]
pub struct Failed;

impl From<Failed> for Stop<Failed> {
    ghost use Rattle.gk_base.specs.declared.stop.Stop.TheVariants as stop;

    ghost from_gives = { λ failed e. e ≡ stop.Fault failed };

    fn from(failed: Failed) -> Self {
        Stop::Fault(failed)
    }
}

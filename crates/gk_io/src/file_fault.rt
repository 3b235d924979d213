//! What may be wrong with a file that was to be read for what it says.

ghost use Rattle.std.specs.Prelude.{◌≡◌};
ghost use Rattle.gk_io.specs.FileStop.{file_stop};

use crate::Failed;
use gk_base::Stop;

/// What is wrong with a file that was to be read for what it says. `R` says why such files are refused.
#[derive(Clone, Copy, Debug, PartialEq, Eq)]
pub enum FileFault<R> {
    /// The shelf could not find it, or could not read it to its end.
    Failed,
    /// What it says is refused.
    Refused(R),
}

/// Why a file was not read: for want of memory, or for what is wrong with it.
pub type FileStop<R> = Stop<FileFault<R>>;

impl<R> From<Failed> for Stop<FileFault<R>> {
    ghost use Rattle.gk_base.specs.declared.stop.Stop.TheVariants as stop;
    ghost use Rattle.gk_io.specs.declared.file_fault.FileFault.TheVariants as fault;

    ghost from_gives = { λ _ e. e ≡ stop.Fault fault.Failed };

    fn from(_: Failed) -> Self {
        Stop::Fault(FileFault::Failed)
    }
}

/// Why the file was not read whose bytes stopped so. It stands after `map_err`, since `?` alone can't turn one `Stop` into
/// another: only the crate of `Stop` could have such an impl of `From`.
pub fn file_stop<R>(stop: Stop<R>) -> FileStop<R>
    ensures { result ≡ file_stop stop }
{
    match stop {
        Stop::NoMemory => Stop::NoMemory,
        Stop::Fault(refusal) => Stop::Fault(FileFault::Refused(refusal)),
    }
}

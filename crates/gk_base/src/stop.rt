//! Why a call did not answer.

ghost use Rattle.std.specs.Prelude.{◌≡◌};

use crate::NoMemory;
use std::alloc::{AllocError, AllocFailed};

/// Why a call that takes memory and judges what it is given did not answer: there was no memory, or the fault that it
/// found. Every such call of these crates stops with it, each with its own kind of fault.
#[derive(Clone, Copy, Debug, PartialEq, Eq)]
pub enum Stop<F> {
    /// No memory was to be had. It may come at any time, and tells nothing of what was judged.
    NoMemory,
    /// What was judged has this fault.
    Fault(F),
}

impl<F> From<NoMemory> for Stop<F> {
    ghost use Rattle.gk_base.specs.declared.stop.Stop.TheVariants as stop;

    ghost from_gives = { λ _ e. e ≡ stop.NoMemory };

    fn from(_: NoMemory) -> Self {
        Stop::NoMemory
    }
}

// `?` converts once, so what std's own calls answer is converted here too.
impl<F> From<AllocError> for Stop<F> {
    ghost use Rattle.gk_base.specs.declared.stop.Stop.TheVariants as stop;

    ghost from_gives = { λ _ e. e ≡ stop.NoMemory };

    fn from(_: AllocError) -> Self {
        Stop::NoMemory
    }
}

impl<T: Drop, F> From<AllocFailed<T>> for Stop<F> {
    ghost use Rattle.gk_base.specs.declared.stop.Stop.TheVariants as stop;

    ghost from_gives = { λ _ e. e ≡ stop.NoMemory };

    fn from(_: AllocFailed<T>) -> Self {
        Stop::NoMemory
    }
}

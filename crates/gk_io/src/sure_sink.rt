//! A sink in memory that never fails.

ghost use Rattle.std.specs.Prelude.{◌≡◌, ◌<◌, ◌≤◌, ◌++◌, ◌↔◌, ◌⊎◌, [], Ok, None, Some, false, IfOk, OnOk, OnErr, IsTrue, length, take, if◌then◌else◌};
ghost use Rattle.gk_io.specs.Cause.{HasCause};
ghost use Rattle.gk_io.specs.Taken.{Appends};

use crate::held_bytes::HeldBytes;
use crate::{Failed, Sink};
use gk_base::NoMemory;
use std::alloc::Global;
use std::marker::Model;

/// Takes every piece whole, and keeps the first bytes of what is written, as many as it has room for. It tells what
/// it took while all of it fits, and no call fails.
#[derive(Drop)]
pub struct SureSink {
    held: HeldBytes,
    /// Whether some byte was not kept.
    overflowed: bool,
}

impl Model for SureSink {
    ghost use Rattle.gk_io.specs.SureSink as sure;

    ghost Value = { sure.SureSink };

    ghost view = { λ s. record { kept = s.held.kept; room = s.held.room; overflowed = s.overflowed } };
}

impl SureSink {
    /// A sink that keeps this many bytes. It takes the memory for them now.
    pub fn new(alloc: Global, room: usize) -> Result<SureSink, NoMemory>
        ensures kept { IfOk result (λ s. s.kept ≡ []) }
        ensures room { IfOk result (λ s. s.room ≡ room) }
        ensures overflowed { IfOk result (λ s. s.overflowed ≡ false) }
    {
        Ok(SureSink {
            held: HeldBytes::new(alloc, room)?,
            overflowed: false,
        })
    }

    /// What it kept: the first bytes of what was written.
    pub fn bytes(&self) -> &[u8]
        ensures { result.now ≡ self.now.kept }
    {
        self.held.bytes()
    }
}

impl Sink for SureSink {
    ghost faults = { λ s. 0 };

    ghost taken = { λ s. if s.overflowed then None else Some s.kept };

    /// Takes the whole piece, and keeps of it what fits.
    fn write(&mut self, piece: &[u8]) -> Result<usize, Failed>
        ensures whole { result ≡ Ok (length piece.now) }
        ensures kept { self.new.kept ≡ take self.old.room (self.old.kept ++ piece.now) }
        ensures overflowed { IsTrue self.new.overflowed ↔ (IsTrue self.old.overflowed ⊎ (self.old.room < length (self.old.kept ++ piece.now))) }
        ensures room { self.new.room ≡ self.old.room }

        // What every sink promises.
        ensures cause { HasCause 0 0 result }
        ensures count { IfOk result (λ n. (n ≤ length piece.now) × (0 < length piece.now → 0 < n)) }
        ensures ok { IfOk result (λ n. Appends (if self.old.overflowed then None else Some self.old.kept) (if self.new.overflowed then None else Some self.new.kept) (take n piece.now)) }
        ensures err { OnErr result ((if self.new.overflowed then None else Some self.new.kept) ≡ (if self.old.overflowed then None else Some self.old.kept)) }
    {
        let fitting = piece.len().min(self.held.free());
        self.held.push(&piece[..fitting]);
        if fitting < piece.len() {
            self.overflowed = true;
        }
        Ok(piece.len())
    }
}

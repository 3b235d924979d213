//! A sink in memory that takes little at once, and fails when it is told to.

ghost use Rattle.std.specs.Prelude.{◌≡◌, ◌<◌, ◌≤◌, ◌+◌, ◌-◌, ◌^◌, ◌++◌, ◌↔◌, ◌⊎◌, [], Some, IfOk, OnOk, OnErr, IsErr, Contains, length, min, take};
ghost use Rattle.gk_io.specs.Cause.{HasCause};
ghost use Rattle.gk_io.specs.Taken.{Appends};

use crate::calls::Calls;
use crate::held_bytes::HeldBytes;
use crate::{Failed, Sink};
use gk_base::NoMemory;
use std::alloc::Global;
use std::marker::Model;

/// Takes at most so many bytes in one call and in all, fails at the calls that are listed, and tells what it took.
#[derive(Drop)]
pub struct MemSink {
    held: HeldBytes,
    /// The most that one call takes.
    most: usize,
    calls: Calls,
}

impl Model for MemSink {
    ghost use Rattle.std.specs.Prelude.{◌<◌};
    ghost use Rattle.gk_io.specs.MemSink as mem;

    ghost Value = { mem.MemSink };

    ghost view = { λ s. record {
      taken = s.held.kept;
      room = s.held.room;
      most = s.most;
      fail = s.calls.fail.items;
      calls = s.calls.number;
      faults = s.calls.faults;
    } };

    ghost invariant = { λ s. 0 < s.most };
}

impl MemSink {
    /// A sink that takes `room` bytes in all, for which it takes the memory now, and at most `most` bytes in one
    /// call. Its calls of `write` are numbered from 1, and those with a number in `fail` answer `Failed`.
    pub fn new(alloc: Global, most: usize, room: usize, fail: Vec<u64>) -> Result<MemSink, NoMemory>
        requires { 0 < most }
        ensures taken { IfOk result (λ s. s.taken ≡ []) }
        ensures room { IfOk result (λ s. s.room ≡ room) }
        ensures most { IfOk result (λ s. s.most ≡ most) }
        ensures fail { IfOk result (λ s. s.fail ≡ fail.items) }
        ensures calls { IfOk result (λ s. s.calls ≡ 0) }
        ensures faults { IfOk result (λ s. s.faults ≡ 0) }
    {
        Ok(MemSink {
            held: HeldBytes::new(alloc, room)?,
            most,
            calls: Calls::new(fail),
        })
    }

    /// What it took.
    pub fn bytes(&self) -> &[u8]
        ensures { result.now ≡ self.now.taken }
    {
        self.held.bytes()
    }
}

impl Sink for MemSink {
    ghost faults = { λ s. s.faults };

    ghost taken = { λ s. Some s.taken };

    /// Takes as much of the piece as one call may and as there is room for. A call that finds no room left answers
    /// `Failed`, for an empty piece too.
    fn write(&mut self, piece: &[u8]) -> Result<usize, Failed>
        ensures calls { self.new.calls ≡ min (self.old.calls + 1) (2 ^ 64 - 1) }
        ensures fails { IsErr result ↔ (Contains self.old.fail self.new.calls ⊎ (self.old.room ≤ length self.old.taken)) }
        ensures takes { IfOk result (λ n. n ≡ min (length piece.now) (min self.old.most (self.old.room - length self.old.taken))) }
        ensures counts { OnErr result (self.new.faults ≡ min (self.old.faults + 1) (2 ^ 64 - 1)) }
        ensures room { self.new.room ≡ self.old.room }
        ensures most { self.new.most ≡ self.old.most }
        ensures fail { self.new.fail ≡ self.old.fail }

        // What every sink promises.
        ensures cause { HasCause self.old.faults self.new.faults result }
        ensures count { IfOk result (λ n. (n ≤ length piece.now) × (0 < length piece.now → 0 < n)) }
        ensures ok { IfOk result (λ n. Appends (Some self.old.taken) (Some self.new.taken) (take n piece.now)) }
        ensures err { OnErr result (Some self.new.taken ≡ Some self.old.taken) }
    {
        let room = self.held.free();
        if self.calls.begin() || room == 0 {
            self.calls.count_failure();
            return Err(Failed);
        }
        let count = piece.len().min(self.most).min(room);
        self.held.push(&piece[..count]);
        Ok(count)
    }
}

//! Reads a file that comes in pieces.

ghost use Rattle.std.specs.Prelude.{◌≡◌, ◌≢◌, ℕ, ◌≤◌, ◌+◌, ◌<◌, ◌^◌, ◌↔◌, List, [], ◌++◌, length, IfErr, IsOk, Err};
ghost use Rattle.gk_base.specs.declared.term.Triple.{Triple};
ghost use Rattle.gk_base.specs.declared.read_fault.ReadRefusal.{ReadRefusal};
ghost use Rattle.gk_base.specs.Answers.{ReadStop, IsSo};
ghost use Rattle.gk_base.specs.declared.stop.Stop.TheVariants.{NoMemory, Fault};
ghost use Rattle.nt_reader.specs.Lines.{cut_of};
ghost use Rattle.nt_reader.specs.File.{AreGood, Refuses, IsOpen};
ghost use Rattle.nt_reader.specs.Kept.{HasRead, FinishSays};

use crate::state::{State, end_line, feed_state};
use gk_base::{Limits, ReadStop};
use std::alloc::Global;
use std::marker::Model;
use std::mem;
use term_list::Triples;

/// Reads a file that comes in pieces. Only a line that no piece holds whole is kept. Contracts see the limits, and what
/// is kept of the pieces so far, or why a call has failed.
#[derive(Drop)]
pub struct Reader {
    alloc: Global,
    limits: Limits,
    state: State,
    /// No call has failed so far.
    running: bool,
    /// Why a call failed, where one has.
    stop: ReadStop,
}

impl Model for Reader {
    ghost use Rattle.nt_reader.specs.Keeping.{KeepsWithin};
    ghost use Rattle.nt_reader.specs.Reading.{Reading, so_far_of};

    ghost Value = { Reading };

    ghost view = { λ r. record { limits = r.limits; so_far = so_far_of r.running r.state r.stop } };

    ghost invariant = { λ r. KeepsWithin r.limits r.running r.state };
}

impl Reader {
    /// A reader of a file under these limits, of which `bytes` and `triples` count. It takes no memory.
    pub fn new(alloc: Global, limits: &Limits) -> Reader
        requires { limits.now.bytes + 1 < 2 ^ 64 }
        ensures limits { result.limits ≡ limits.now }
        ensures read { HasRead result [] [] }
        // It begins to read, and has not failed.
        ensures running { IsOk result.so_far }
    {
        Reader {
            alloc,
            limits: *limits,
            state: State {
                triples: Triples::new(alloc),
                room: limits.triples,
                kept: Vec::new(alloc),
                bytes: 0,
                line: 1,
                after_return: false,
            },
            running: true,
            stop: ReadStop::NoMemory,
        }
    }

    /// Takes the next piece. It is refused at the first line that is faulty or has a triple too many, each line
    /// being judged at the first byte of its end, and at the first byte after the limit. After an `Err` every
    /// later call answers the same.
    pub fn feed(&mut self, piece: &[u8]) -> Result<(), ReadStop>
        ensures limits { self.new.limits ≡ self.old.limits }
        // Whatever the pieces were, it has now read them and this one.
        ensures read { (taken : List Triple) (seen : List ℕ) → HasRead self.old taken seen → HasRead self.new taken (seen ++ piece.now) }
        // Where it takes the piece, nothing that was fed so far is refused.
        ensures open { IsOk result → (taken : List Triple) (seen : List ℕ) → HasRead self.old taken seen → IsOpen self.old.limits (seen ++ piece.now) }
        // It answers a refusal exactly where that refuses a byte of all that was fed so far, unless memory ran out.
        ensures refused { result ≢ Err NoMemory → (taken : List Triple) (seen : List ℕ) → HasRead self.old taken seen → (refusal : ReadRefusal) →
            (result ≡ Err (Fault refusal)) ↔ Refuses self.old.limits (seen ++ piece.now) refusal }
        ensures ok { IsOk result ↔ IsOk self.new.so_far }
        ensures err { IfErr result (λ stop. self.new.so_far ≡ Err stop) }
        // Once it has failed, it fails again for the same reason.
        ensures again { (stop : ReadStop) → self.old.so_far ≡ Err stop → result ≡ Err stop }
    {
        if !self.running {
            return Err(self.stop);
        }
        self.running = false;
        let answer = feed_state(self.alloc, &self.limits, &mut self.state, piece);
        match answer {
            Ok(()) => self.running = true,
            Err(stop) => self.stop = stop,
        }
        answer
    }

    /// Moves the triples of the lines that have ended into an empty list, in order of their lines and with repeats, less
    /// those that an earlier call has given; none after an `Err`. So a caller need not hold all triples of a file. They
    /// count against the limit all the same. The list's own memory serves for the next triples, and none is taken.
    pub fn take_triples(&mut self, into: &mut Triples)
        requires { into.old ≡ [] }
        ensures limits { self.new.limits ≡ self.old.limits }
        ensures running { IsOk self.new.so_far ↔ IsOk self.old.so_far }
        ensures stop { (stop : ReadStop) → self.old.so_far ≡ Err stop → self.new.so_far ≡ Err stop }
        // With those that were taken before, they are all triples so far.
        ensures all { IsOk self.old.so_far → (taken : List Triple) (seen : List ℕ) → HasRead self.old taken seen →
            AreGood (cut_of seen).ended (taken ++ into.new) }
        ensures taken { (taken : List Triple) (seen : List ℕ) → HasRead self.old taken seen → HasRead self.new (taken ++ into.new) seen }
        ensures stopped { (stop : ReadStop) → self.old.so_far ≡ Err stop → into.new ≡ [] }
    {
        if !self.running {
            return;
        }
        mem::swap(&mut self.state.triples, into);
        self.state.room = self.state.room.saturating_sub(into.len() as u64);
    }

    /// The triples that were not taken yet, or why the file is refused; or the `Err` of an earlier call. With those that
    /// were taken they are the triples of the whole file, in order of their lines and with repeats. A last line without
    /// an end counts where it is not empty.
    pub fn finish(self) -> Result<Triples, ReadStop>
        ensures says { (taken : List Triple) (bytes : List ℕ) → HasRead self taken bytes → IsSo (FinishSays self.limits taken bytes) result }
        ensures again { (stop : ReadStop) → self.so_far ≡ Err stop → result ≡ Err stop }
    {
        let Reader {
            alloc,
            limits,
            mut state,
            running,
            stop,
        } = self;
        if !running {
            return Err(stop);
        }
        if !state.kept.is_empty() {
            end_line(alloc, &mut state, &[])?;
        }
        Ok(state.triples)
    }
}

//! Bytes that are kept in memory of a fixed size.

ghost use Rattle.std.specs.Prelude.{◌≡◌, ◌≤◌, ◌+◌, ◌-◌, ◌++◌, [], length, take, IfOk};

use gk_base::NoMemory;
use std::alloc::Global;
use std::marker::Model;

/// Bytes that grow at their end, in memory that was taken at making.
#[derive(Drop)]
pub(crate) struct HeldBytes {
    memory: Vec<u8>,
    /// How many bytes of the memory are in use.
    len: usize,
}

impl Model for HeldBytes {
    ghost use Rattle.std.specs.Prelude.{◌≤◌, take, length};
    ghost use Rattle.gk_io.specs.HeldBytes as held;

    ghost Value = { held.HeldBytes };

    ghost view = { λ h. record { kept = take h.len h.memory.items; room = length h.memory.items } };

    ghost invariant = { λ h. h.len ≤ length h.memory.items };
}

/// Writes the piece at a place.
fn copy_at(memory: &mut [u8], at: usize, piece: &[u8])
    requires { at + length piece.now ≤ length memory.old }
    ensures { take (at + length piece.now) memory.new ≡ take at memory.old ++ piece.now }
{
    memory[at..at + piece.len()].copy_from_slice(piece);
}

impl HeldBytes {
    /// Memory for this many bytes.
    pub(crate) fn new(alloc: Global, room: usize) -> Result<HeldBytes, NoMemory>
        ensures kept { IfOk result (λ h. h.kept ≡ []) }
        ensures room { IfOk result (λ h. h.room ≡ room) }
    {
        Ok(HeldBytes {
            memory: vec![in alloc; 0; room]?,
            len: 0,
        })
    }

    /// What was kept.
    pub(crate) fn bytes(&self) -> &[u8]
        ensures { result.now ≡ self.now.kept }
    {
        &self.memory[..self.len]
    }

    /// How many more bytes fit.
    pub(crate) fn free(&self) -> usize
        ensures free { result ≡ self.now.room - length self.now.kept }
        ensures within { length self.now.kept ≤ self.now.room }
    {
        self.memory.len() - self.len
    }

    /// Appends the piece.
    pub(crate) fn push(&mut self, piece: &[u8])
        requires { length self.old.kept + length piece.now ≤ self.old.room }
        ensures kept { self.new.kept ≡ self.old.kept ++ piece.now }
        ensures room { self.new.room ≡ self.old.room }
    {
        copy_at(&mut self.memory, self.len, piece);
        self.len += piece.len();
    }
}

//! What is kept of a file that comes in pieces.

ghost use Rattle.std.specs.Prelude.{◌≡◌, ℕ, ◌≤◌, ◌+◌, ◌<◌, ◌^◌, ◌↔◌, true, false, List, [], ◌∷◌, ◌++◌, length, OnOk, IfErr, IsOk, IsTrue, Err};
ghost use Rattle.gk_base.specs.declared.read_fault.ReadRefusal.{ReadRefusal};
ghost use Rattle.gk_base.specs.declared.stop.Stop.TheVariants.{Fault};
ghost use Rattle.gk_base.specs.Answers.{IsSo};
ghost use Rattle.nt_reader.specs.Judged.{Judges};
ghost use Rattle.nt_reader.specs.Keeping.{Takes};

use crate::lexed_triple::LexedTriple;
use crate::line::line_answer;
use crate::scan::line_run;
use gk_base::{LexStop, Limits, ReadFault, ReadRefusal, ReadStop};
use std::alloc::Global;
use term_list::Triples;

/// What is kept of the pieces so far.
#[derive(Drop)]
pub(crate) struct State {
    /// Of the lines that have ended, less those that were taken.
    pub(crate) triples: Triples,
    /// How many triples there may be beside those that were taken.
    pub(crate) room: u64,
    /// The front of a line that no piece has held whole.
    pub(crate) kept: Vec<u8>,
    /// How many bytes have come.
    pub(crate) bytes: u64,
    /// The number of the line that comes next or has begun, from 1.
    pub(crate) line: u64,
    /// Whether a carriage return came last.
    pub(crate) after_return: bool,
}

/// The refusal of a line.
fn refused(line: u64, fault: ReadFault) -> ReadStop
    ensures { result ≡ Fault (record { line = line; fault = fault }) }
{
    ReadStop::Fault(ReadRefusal { line, fault })
}

/// Adds the triple of this line, where there may be one more.
fn add(
    room: u64,
    triples: &mut Triples,
    number: u64,
    triple: &LexedTriple<'_>,
) -> Result<(), ReadStop>
    ensures ok { OnOk result (triples.new ≡ triples.old ++ triple.now ∷ []) }
    ensures few { OnOk result (length triples.new ≤ room) }
    ensures full { (refusal : ReadRefusal) → result ≡ Err (Fault refusal) → room ≤ length triples.old }
    ensures refused { (refusal : ReadRefusal) → result ≡ Err (Fault refusal) → refusal ≡ record { line = number; fault = ReadFault.TooManyTriples } }
{
    if triples.len() as u64 >= room {
        return Err(refused(number, ReadFault::TooManyTriples));
    }
    triples.push(
        &triple.subject.lent(),
        &triple.predicate.lent(),
        &triple.object.lent(),
    )?;
    Ok(())
}

/// Judges the line of this content.
fn judge(
    alloc: Global,
    room: u64,
    triples: &mut Triples,
    number: u64,
    content: &[u8],
) -> Result<(), ReadStop>
    ensures { IsSo (Judges room triples.old triples.new content.now number) result }
{
    match line_answer(alloc, content) {
        Ok(None) => Ok(()),
        Ok(Some(triple)) => add(room, triples, number, &triple),
        Err(LexStop::NoMemory) => Err(ReadStop::NoMemory),
        Err(LexStop::Fault(fault)) => Err(refused(number, ReadFault::Lex(fault))),
    }
}

/// Judges the line that ends with this part.
pub(crate) fn end_line(alloc: Global, state: &mut State, part: &[u8]) -> Result<(), ReadStop>
    ensures bytes { state.new.bytes ≡ state.old.bytes }
    ensures line { state.new.line ≡ state.old.line }
    ensures returned { state.new.after_return ≡ state.old.after_return }
    ensures room { state.new.room ≡ state.old.room }
    ensures kept { OnOk result (state.new.kept.items ≡ []) }
    ensures judged { IsSo (Judges state.old.room state.old.triples state.new.triples (state.old.kept.items ++ part.now) state.old.line) result }
{
    if state.kept.is_empty() {
        return judge(alloc, state.room, &mut state.triples, state.line, part);
    }
    state.kept.extend_from_slice(part)?;
    judge(
        alloc,
        state.room,
        &mut state.triples,
        state.line,
        &state.kept,
    )?;
    state.kept.clear();
    Ok(())
}

/// Takes a piece that the limit lets in.
fn take(alloc: Global, limits: &Limits, state: &mut State, piece: &[u8]) -> Result<(), ReadStop>
    requires room { state.old.bytes + length piece.now ≤ limits.now.bytes }
    requires few { state.old.line ≤ state.old.bytes + 1 }
    requires within { limits.now.bytes + 1 < 2 ^ 64 }
    ensures bytes { OnOk result (state.new.bytes ≡ state.old.bytes + length piece.now) }
    ensures line { OnOk result (state.new.line ≤ state.new.bytes + 1) }
    ensures takes { Takes limits.now state.old state.new piece.now result }
{
    let mut from = 0;
    'lines: while from < piece.len() {
        if state.after_return && piece[from] == b'\n' {
            state.after_return = false;
            state.bytes += 1;
            from += 1;
            continue;
        }
        state.after_return = false;
        let end = line_run(piece, from);
        state.bytes += (end - from) as u64;
        if end == piece.len() {
            state.kept.extend_from_slice(&piece[from..end])?;
            return Ok(());
        }
        end_line(alloc, state, &piece[from..end])?;
        state.line += 1;
        state.bytes += 1;
        state.after_return = piece[end] == b'\r';
        from = end + 1;
    }
    Ok(())
}

/// Takes a piece, or as much of it as the limit lets.
pub(crate) fn feed_state(
    alloc: Global,
    limits: &Limits,
    state: &mut State,
    piece: &[u8],
) -> Result<(), ReadStop>
    requires room { state.old.bytes ≤ limits.now.bytes }
    requires few { state.old.line ≤ state.old.bytes + 1 }
    requires within { limits.now.bytes + 1 < 2 ^ 64 }
    ensures room { OnOk result (state.new.bytes ≤ limits.now.bytes) }
    ensures few { OnOk result (state.new.line ≤ state.new.bytes + 1) }
    ensures takes { Takes limits.now state.old state.new piece.now result }
{
    let room = limits.bytes - state.bytes;
    if piece.len() as u64 <= room {
        return take(alloc, limits, state, piece);
    }
    let cut = room as usize;
    take(alloc, limits, state, &piece[..cut])?;
    if state.after_return && piece[cut] == b'\n' {
        return Err(refused(state.line.saturating_sub(1), ReadFault::TooLong));
    }
    Err(refused(state.line, ReadFault::TooLong))
}

//! Reads a whole key file: its keys, or the first refused line.

ghost use Rattle.std.specs.Prelude.{◌≡◌, ◌-◌, ◌≤◌, List, length, take, Result};
ghost use Rattle.nt_lex.specs.Scans.{IsRunAt};
ghost use Rattle.nt_reader.specs.Lines.{is_line_byte};
ghost use Rattle.key_file.specs.KeyShape.{KeyShape};
ghost use Rattle.gk_base.specs.Answers.{IsSo, Gives};
ghost use Rattle.key_lang.specs.declared.fault.KeyRefusal.{KeyRefusal};
ghost use Rattle.key_lang.specs.Fair.{IsFairState};
ghost use Rattle.key_lang.specs.Seen.{NumberedSays, HasSeen, SeesLines, SeesAll, next_line};
ghost use Rattle.key_lang.specs.Answers.{Is};
ghost use Rattle.key_lang.specs.KeyText.{ended, KeysSay};

use crate::fault::{KeyFault, KeyRefusal, KeyStop, LineStop};
use crate::line::after_line;
use crate::open_key::Progress;
use key_file::KeyFile;
use std::alloc::Global;

/// What the lines that have ended come to.
#[derive(Drop)]
pub(crate) struct Seen {
    pub(crate) state: Progress,
    /// The number of the next line, from 1.
    pub(crate) number: u64,
    /// Where the next line begins, or a line feed that still belongs to the one before it.
    pub(crate) from: usize,
    /// Whether a carriage return came last.
    pub(crate) after_return: bool,
}

/// The first place from `at` on with a line feed or a carriage return, or the end.
#[inline]
fn line_run(bytes: &[u8], at: usize) -> usize
    requires { at ≤ length bytes.now }
    ensures { IsRunAt is_line_byte bytes.now at result }
{
    let mut end = at;
    while end < bytes.len() && bytes[end] != b'\n' && bytes[end] != b'\r' {
        end += 1;
    }
    end
}

/// The front of a text, of at most `limit` bytes.
fn front(bytes: &[u8], limit: u64) -> &[u8]
    ensures { result.now ≡ take limit bytes.now }
{
    if limit < bytes.len() as u64 {
        &bytes[..limit as usize]
    } else {
        bytes
    }
}

/// Judges the line with this number.
fn judge(alloc: Global, state: Progress, number: u64, line: &[u8]) -> Result<Progress, KeyStop>
    requires { IsFairState state }
    ensures { IsSo (NumberedSays state line.now number) result }
{
    match after_line(alloc, state, line) {
        Ok(next) => Ok(next),
        Err(LineStop::NoMemory) => Err(KeyStop::NoMemory),
        Err(LineStop::Fault(fault)) => Err(KeyStop::Fault(KeyRefusal {
            line: number,
            fault,
        })),
    }
}

/// Judges the lines that end in this front of a file.
fn see_lines(alloc: Global, front: &[u8]) -> Result<Seen, KeyStop>
    ensures { IsSo (SeesLines front.now) result }
{
    let mut state = Progress {
        keys: KeyFile::new(alloc),
        current: None,
    };
    let mut number = 1;
    let mut from = 0;
    let mut after_return = false;
    'lines: while from < front.len() {
        if after_return && front[from] == b'\n' {
            after_return = false;
            from += 1;
            continue;
        }
        after_return = false;
        let end = line_run(front, from);
        if end == front.len() {
            break;
        }
        state = judge(alloc, state, number, &front[from..end])?;
        number += 1;
        after_return = front[end] == b'\r';
        from = end + 1;
    }
    Ok(Seen {
        state,
        number,
        from,
        after_return,
    })
}

/// Judges the last line of a file, where it does not end.
fn see_rest(alloc: Global, bytes: &[u8], seen: Seen) -> Result<Seen, KeyStop>
    requires { HasSeen bytes.now seen }
    ensures { IsSo (SeesAll bytes.now) result }
{
    if seen.from >= bytes.len() {
        return Ok(seen);
    }
    let Seen {
        state,
        number,
        from,
        after_return,
    } = seen;
    let state = judge(alloc, state, number, &bytes[from..])?;
    Ok(Seen {
        state,
        number: number + 1,
        from: bytes.len(),
        after_return,
    })
}

/// The keys of a file whose lines are all good.
fn keys_of(seen: Seen) -> Result<KeyFile, KeyStop>
    ensures { IsSo (Is (ended seen.state.keys seen.state.current (seen.number - 1))) result }
{
    let Seen { state, number, .. } = seen;
    let Progress { keys, current } = state;
    match current {
        None => Ok(keys),
        Some(_) => Err(KeyStop::Fault(KeyRefusal {
            line: number.saturating_sub(1),
            fault: KeyFault::FileEndsInsideAKey,
        })),
    }
}

/// The line to which the byte after these lines belongs.
fn next_line(seen: &Seen, byte: u8) -> u64
    ensures { result ≡ next_line seen.now byte }
{
    if seen.after_return && byte == b'\n' {
        seen.number.saturating_sub(1)
    } else {
        seen.number
    }
}

/// Reads a key file as `read_keys` does.
fn keys_answer(alloc: Global, bytes: &[u8], limit: u64) -> Result<KeyFile, KeyStop>
    ensures { IsSo (KeysSay limit bytes.now) result }
{
    let seen = see_lines(alloc, front(bytes, limit))?;
    if limit < bytes.len() as u64 {
        return Err(KeyStop::Fault(KeyRefusal {
            line: next_line(&seen, bytes[limit as usize]),
            fault: KeyFault::FileTooLong,
        }));
    }
    keys_of(see_rest(alloc, bytes, seen)?)
}

/// Reads a key file of at most `limit` bytes. Its lines are judged in order, each that ends within the limit, and a
/// last one with no end where the whole file is within it.
///
/// It is refused at the first line that says none of the statements where it stands, by the first check that
/// fails there; at the byte after the limit; or at its last line, where that leaves a key open.
pub fn read_keys(alloc: Global, bytes: &[u8], limit: u64) -> Result<KeyFile, KeyStop>
    // What was answered is what the file says.
    ensures says { IsSo (KeysSay limit bytes.now) result }
    // What the file says was answered, unless memory ran out.
    ensures only { (answer : Result (List KeyShape) KeyRefusal) → KeysSay limit bytes.now answer → Gives result answer }
{
    keys_answer(alloc, bytes, limit)
}

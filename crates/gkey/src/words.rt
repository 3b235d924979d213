//! The words that the program is called with.

use gk_base::{Stop, Text};
use std::alloc::Global;
use std::env::FillError;
use std::rt::Env;

/// The room in bytes for the first word. Most words are shorter, and it grows for the others.
const FIRST_ROOM: usize = 256;

/// How often a word is asked for, each time with twice the room, so with 32 MiB at last. No system hands over a word as long.
const MOST_TRIES: u32 = 18;

/// The system did not give the words.
#[derive(Clone, Copy, Debug, PartialEq, Eq)]
pub struct NoWords;

/// A copy of this word, and none behind the last. The buffer grows till the word fits.
fn word<E: Env>(
    env: &E,
    alloc: Global,
    at: usize,
    buf: &mut Vec<u8>,
) -> Result<Option<Text>, Stop<NoWords>> {
    for _ in 0..MOST_TRIES {
        match env.arg(at, buf.as_mut_slice()) {
            Ok(count) => return Ok(Some(Text::from_bytes(alloc, &buf[..count])?)),
            Err(FillError::NotPresent) => return Ok(None),
            Err(FillError::TooLong) => buf.resize(buf.len().saturating_mul(2), 0)?,
        }
    }
    Err(Stop::Fault(NoWords))
}

/// A copy of the words after the program's name, byte for byte: a word need not be text. No contract can say what the system
/// gives, so tests alone show that they are copied unchanged.
pub fn words<E: Env>(env: &E, alloc: Global) -> Result<Vec<Text>, Stop<NoWords>> {
    let mut buf = vec![in alloc; 0u8; FIRST_ROOM]?;
    let mut words = Vec::new(alloc);
    for at in 1..usize::MAX {
        match word(env, alloc, at, &mut buf)? {
            Some(word) => words.push(word)?,
            None => break,
        }
    }
    Ok(words)
}

#[cfg(test)]
mod tests;

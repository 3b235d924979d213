//! Where language tags end, and tags in lower case.

ghost use Rattle.std.specs.Prelude.{◌≡◌, ◌≤◌, length, IfOk, map};
ghost use Rattle.std.specs.Char.{to_ascii_lowercase};
ghost use Rattle.std.specs.Cow.{cow_slice_items};
ghost use Rattle.nt_lex.specs.Chars.{is_letter, is_letter_or_digit};
ghost use Rattle.nt_lex.specs.Parts.{TagSays};
ghost use Rattle.nt_lex.specs.Scans.{IsRunAt};

use crate::scan::byte_at;
use std::alloc::{AllocError, Global};
use std::borrow::CowSlice;

fn is_letter(b: u8) -> bool
    ensures { result ≡ is_letter b }
{
    b.is_ascii_alphabetic()
}

fn is_letter_or_digit(b: u8) -> bool
    ensures { result ≡ is_letter_or_digit b }
{
    b.is_ascii_alphabetic() || b.is_ascii_digit()
}

fn letters_end(line: &[u8], from: usize) -> usize
    requires { from ≤ length line.now }
    ensures { IsRunAt is_letter line.now from result }
{
    let mut end = from;
    while end < line.len() && is_letter(line[end]) {
        end += 1;
    }
    end
}

fn subtag_end(line: &[u8], from: usize) -> usize
    requires { from ≤ length line.now }
    ensures { IsRunAt is_letter_or_digit line.now from result }
{
    let mut end = from;
    while end < line.len() && is_letter_or_digit(line[end]) {
        end += 1;
    }
    end
}

/// Where the tag ends that begins at `from`, after its `@`, if one does.
pub(crate) fn tag_end(line: &[u8], from: usize) -> Option<usize>
    requires { from ≤ length line.now }
    ensures { TagSays line.now from result }
{
    let mut end = letters_end(line, from);
    if end == from {
        return None;
    }
    'groups: while byte_at(line, end) == b'-' {
        let next = subtag_end(line, end + 1);
        if next == end + 1 {
            return None;
        }
        end = next;
    }
    Some(end)
}

/// The tag in lower case. Only one with a capital letter takes memory.
pub(crate) fn lowered<'a>(alloc: Global, tag: &'a [u8]) -> Result<CowSlice<'a, u8>, AllocError>
    ensures { IfOk result (λ v. cow_slice_items v ≡ map to_ascii_lowercase tag.now) }
{
    if tag.iter().all(|b| !b.is_ascii_uppercase()) {
        return Ok(CowSlice::Borrowed(tag));
    }
    let lower = tag.iter().map(|b| b.to_ascii_lowercase()).collect(alloc)?;
    Ok(CowSlice::Owned(lower))
}

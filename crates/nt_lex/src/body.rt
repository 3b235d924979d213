//! The characters inside an IRI or a string: runs that stand for themselves, and escapes between them.

ghost use Rattle.std.specs.Prelude.{◌≡◌, ◌≤◌, ◌++◌, length, drop, IsUtf8, IfOk, OnOk, encode_utf8};
ghost use Rattle.std.specs.Cow.{cow_slice_items};
ghost use Rattle.nt_lex.specs.Written.{in_iri, in_string, RunsTo};

use crate::escape::{string_escape, uchar};
use crate::scan::{iri_run, string_run};
use std::alloc::{AllocError, Global};
use std::borrow::CowSlice;

fn push_char(text: &mut Vec<u8>, c: char) -> Result<(), AllocError>
    ensures { OnOk result (text.new.items ≡ text.old.items ++ encode_utf8 c) }
{
    let mut buf = [0u8; 4];
    text.extend_from_slice(c.encode_utf8(&mut buf).as_bytes())
}

#[inline]
fn copied(alloc: Global, bytes: &[u8]) -> Result<Vec<u8>, AllocError>
    ensures { IfOk result (λ v. v.items ≡ bytes.now) }
{
    Vec::from_slice(alloc, bytes)
}

/// What the characters from `from` on stand for, as long as they may stand in an IRI, and the place after them.
/// Only a text with an escape takes memory.
pub(crate) fn iri_body<'a>(
    alloc: Global,
    line: &'a [u8],
    from: usize,
) -> Result<(CowSlice<'a, u8>, usize), AllocError>
    requires inside { from ≤ length line.now }
    requires utf8 { IsUtf8 (drop from line.now) }
    ensures { IfOk result (λ r. RunsTo in_iri line.now from (cow_slice_items r.0) r.1) }
{
    let mut end = iri_run(line, from);
    if end == line.len() || line[end] != b'\\' {
        return Ok((CowSlice::Borrowed(&line[from..end]), end));
    }
    let mut text = copied(alloc, &line[from..end])?;
    'escapes: while end < line.len() && line[end] == b'\\' {
        let Some((c, after)) = uchar(line, end) else {
            break;
        };
        push_char(&mut text, c)?;
        end = iri_run(line, after);
        text.extend_from_slice(&line[after..end])?;
    }
    Ok((CowSlice::Owned(text), end))
}

/// The same as `iri_body`, in a string.
pub(crate) fn string_body<'a>(
    alloc: Global,
    line: &'a [u8],
    from: usize,
) -> Result<(CowSlice<'a, u8>, usize), AllocError>
    requires inside { from ≤ length line.now }
    requires utf8 { IsUtf8 (drop from line.now) }
    ensures { IfOk result (λ r. RunsTo in_string line.now from (cow_slice_items r.0) r.1) }
{
    let mut end = string_run(line, from);
    if end == line.len() || line[end] != b'\\' {
        return Ok((CowSlice::Borrowed(&line[from..end]), end));
    }
    let mut text = copied(alloc, &line[from..end])?;
    'escapes: while end < line.len() && line[end] == b'\\' {
        let Some((c, after)) = string_escape(line, end) else {
            break;
        };
        push_char(&mut text, c)?;
        end = string_run(line, after);
        text.extend_from_slice(&line[after..end])?;
    }
    Ok((CowSlice::Owned(text), end))
}

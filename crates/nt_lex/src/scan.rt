//! Runs of bytes that stand for themselves.

ghost use Rattle.std.specs.Prelude.{◌≡◌, ◌≤◌, length, slice_index};
ghost use Rattle.nt_lex.specs.Chars.{is_iri_plain, is_string_plain};
ghost use Rattle.nt_lex.specs.Scans.{IsRunAt};

use crate::lanes::{LANES, iri_stops, string_stops};
use std::simd::prelude::*;

/// The byte at `at`, or 0 past the end.
#[inline]
pub(crate) fn byte_at(line: &[u8], at: usize) -> u8
    ensures { result ≡ slice_index line.now at }
{
    if at < line.len() { line[at] } else { 0 }
}

#[inline]
fn is_iri_plain(b: u8) -> bool
    ensures { result ≡ is_iri_plain b }
{
    !(b <= 0x20
        || b == b'<'
        || b == b'>'
        || b == b'"'
        || b == b'{'
        || b == b'}'
        || b == b'|'
        || b == b'^'
        || b == b'`'
        || b == b'\\')
}

#[inline]
fn is_string_plain(b: u8) -> bool
    ensures { result ≡ is_string_plain b }
{
    !(b == b'"' || b == b'\\' || b == b'\n' || b == b'\r')
}

/// The same as `iri_run`, byte by byte: it reads the last bytes of a line, which fill no vector.
fn iri_run_slowly(line: &[u8], at: usize) -> usize
    requires { at ≤ length line.now }
    ensures { IsRunAt is_iri_plain line.now at result }
{
    let mut end = at;
    while end < line.len() && is_iri_plain(line[end]) {
        end += 1;
    }
    end
}

/// The first place from `at` on with a byte that does not stand for itself in an IRI, or the end.
#[inline]
pub fn iri_run(line: &[u8], at: usize) -> usize
    requires { at ≤ length line.now }
    ensures { IsRunAt is_iri_plain line.now at result }
{
    let mut end = at;
    while line.len() - end >= LANES {
        let stops = iri_stops(u8x16::from_slice(&line[end..]));
        if stops != 0 {
            return end + stops.trailing_zeros() as usize;
        }
        end += LANES;
    }
    iri_run_slowly(line, end)
}

/// The same as `string_run`, byte by byte: it reads the last bytes of a line, which fill no vector.
fn string_run_slowly(line: &[u8], at: usize) -> usize
    requires { at ≤ length line.now }
    ensures { IsRunAt is_string_plain line.now at result }
{
    let mut end = at;
    while end < line.len() && is_string_plain(line[end]) {
        end += 1;
    }
    end
}

/// The first place from `at` on with a byte that does not stand for itself in a string, or the end.
#[inline]
pub fn string_run(line: &[u8], at: usize) -> usize
    requires { at ≤ length line.now }
    ensures { IsRunAt is_string_plain line.now at result }
{
    let mut end = at;
    while line.len() - end >= LANES {
        let stops = string_stops(u8x16::from_slice(&line[end..]));
        if stops != 0 {
            return end + stops.trailing_zeros() as usize;
        }
        end += LANES;
    }
    string_run_slowly(line, end)
}

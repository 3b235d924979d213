//! Sixteen bytes at a time: which of them do not stand for themselves.

ghost use Rattle.std.specs.Prelude.{◌≡◌, map};
ghost use Rattle.std.specs.Simd.Lanes.{mask_l};
ghost use Rattle.nt_lex.specs.Chars.{is_iri_excluded, is_string_excluded};

use std::simd::prelude::*;

/// How many bytes stand in one vector. Names and strings are short, mostly between 16 and 64 bytes: with 32 lanes most of
/// them would be left to the readers that go byte by byte. The lines of a file are longer, and `nt_reader` looks for their
/// ends in 32 lanes.
pub(crate) const LANES: usize = 16;

/// One bit for each byte, the first the lowest: whether the byte is excluded in an IRI.
#[inline(always)]
pub(crate) fn iri_stops(bytes: u8x16) -> u64
    ensures { result ≡ mask_l (map is_iri_excluded bytes) }
{
    (bytes.simd_le(u8x16::splat(0x20))
        | bytes.simd_eq(u8x16::splat(b'<'))
        | bytes.simd_eq(u8x16::splat(b'>'))
        | bytes.simd_eq(u8x16::splat(b'"'))
        | bytes.simd_eq(u8x16::splat(b'{'))
        | bytes.simd_eq(u8x16::splat(b'}'))
        | bytes.simd_eq(u8x16::splat(b'|'))
        | bytes.simd_eq(u8x16::splat(b'^'))
        | bytes.simd_eq(u8x16::splat(b'`'))
        | bytes.simd_eq(u8x16::splat(b'\\'))).to_bitmask()
}

/// The same as `iri_stops`, in a string.
#[inline(always)]
pub(crate) fn string_stops(bytes: u8x16) -> u64
    ensures { result ≡ mask_l (map is_string_excluded bytes) }
{
    (bytes.simd_eq(u8x16::splat(b'"'))
        | bytes.simd_eq(u8x16::splat(b'\\'))
        | bytes.simd_eq(u8x16::splat(b'\n'))
        | bytes.simd_eq(u8x16::splat(b'\r'))).to_bitmask()
}

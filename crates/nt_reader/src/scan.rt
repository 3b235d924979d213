//! Where a line ends.

ghost use Rattle.std.specs.Prelude.{◌≡◌, ◌≤◌, length, map};
ghost use Rattle.std.specs.Simd.Lanes.{mask_l};
ghost use Rattle.nt_lex.specs.Scans.{IsRunAt};
ghost use Rattle.nt_reader.specs.Lines.{is_line_end, is_line_byte};

use std::simd::prelude::*;

/// How many bytes stand in one vector. Most lines are longer than 32 bytes, so that wide vectors pay here; the texts inside a
/// line, which `nt_lex` scans in 16 lanes, are shorter.
const LANES: usize = 32;

/// One bit for each byte, the first the lowest: whether the byte ends a line.
#[inline(always)]
fn line_ends(bytes: u8x32) -> u64
    ensures { result ≡ mask_l (map is_line_end bytes) }
{
    (bytes.simd_eq(u8x32::splat(b'\n')) | bytes.simd_eq(u8x32::splat(b'\r'))).to_bitmask()
}

/// The same as `line_run`, byte by byte: it reads the last bytes of a piece, which fill no vector.
fn line_run_slowly(piece: &[u8], at: usize) -> usize
    requires { at ≤ length piece.now }
    ensures { IsRunAt is_line_byte piece.now at result }
{
    let mut end = at;
    while end < piece.len() && piece[end] != b'\n' && piece[end] != b'\r' {
        end += 1;
    }
    end
}

/// The first place from `at` on with a line feed or a carriage return, or the end.
#[inline]
pub(crate) fn line_run(piece: &[u8], at: usize) -> usize
    requires { at ≤ length piece.now }
    ensures { IsRunAt is_line_byte piece.now at result }
{
    let mut end = at;
    while piece.len() - end >= LANES {
        let ends = line_ends(u8x32::from_slice(&piece[end..]));
        if ends != 0 {
            return end + ends.trailing_zeros() as usize;
        }
        end += LANES;
    }
    line_run_slowly(piece, end)
}

//! Reads escaped characters: the grammar's ECHAR and UCHAR.

ghost use Rattle.std.specs.Prelude.{◌≡◌, ◌+◌, ◌<◌, ◌≤◌, true, false, length, take, drop, slice_index, if◌then◌else◌, Some, None, IfSome, IfNone};
ghost use Rattle.std.specs.List.{list_all};
ghost use Rattle.std.specs.Str.Parse.{digits_value};
ghost use Rattle.nt_lex.specs.Chars.{is_escape_letter};
ghost use Rattle.nt_lex.specs.Written.{in_string, meant_by_letter, is_uchar, is_hex, is_code, Stops, EscapeAt};

use crate::scan::byte_at;

/// The number that hexadecimal digits write.
fn hex_value(digits: &[u8]) -> Option<u32>
    requires { length digits.now ≤ 8 }
    ensures { result ≡ (if list_all is_hex digits.now then Some (digits_value 16 digits.now) else None) }
{
    let mut value: u32 = 0;
    'digits: for byte in digits {
        let digit = char::from(*byte).to_digit(16)?;
        value = value * 16 + digit;
    }
    Some(value)
}

#[tactic(auto, unfolding(crate::specs::Written::is_code))]
/// The character whose code has this many digits from `at` on, and the place after them.
fn code(line: &[u8], at: usize, len: usize) -> Option<(char, usize)>
    requires inside { at ≤ length line.now }
    requires short { len ≤ 8 }
    ensures found { IfSome result (λ r. is_code len (take len (drop at line.now)) ≡ true) }
    ensures value { IfSome result (λ r. r.0 ≡ digits_value 16 (take len (drop at line.now))) }
    ensures end { IfSome result (λ r. r.1 ≡ at + len) }
    ensures within { IfSome result (λ r. at + len ≤ length line.now) }
    ensures none { IfNone result (is_code len (take len (drop at line.now)) ≡ false) }
{
    if line.len() - at < len {
        return None;
    }
    let end = at + len;
    let value = hex_value(&line[at..end])?;
    let c = char::from_u32(value)?;
    Some((c, end))
}

/// The UCHAR at `at`, where a backslash stands: its character, and the place after it.
pub(crate) fn uchar(line: &[u8], at: usize) -> Option<(char, usize)>
    requires inside { at < length line.now }
    requires back { slice_index line.now at ≡ 0x5C }
    ensures found { IfSome result (λ r. EscapeAt is_uchar line.now at r.0 r.1) }
    ensures none { IfNone result (Stops is_uchar (drop at line.now)) }
{
    let next = byte_at(line, at + 1);
    if next == b'u' {
        code(line, at + 2, 4)
    } else if next == b'U' {
        code(line, at + 2, 8)
    } else {
        None
    }
}

/// The character that a letter after a backslash stands for.
fn letter(b: u8) -> Option<char>
    ensures { result ≡ (if is_escape_letter b then Some (meant_by_letter b) else None) }
{
    match b {
        b't' => Some('\t'),
        b'b' => Some('\u{8}'),
        b'n' => Some('\n'),
        b'r' => Some('\r'),
        b'f' => Some('\u{C}'),
        b'"' => Some('"'),
        b'\'' => Some('\''),
        b'\\' => Some('\\'),
        _ => None,
    }
}

/// The ECHAR or UCHAR at `at`, where a backslash stands: its character, and the place after it.
pub(crate) fn string_escape(line: &[u8], at: usize) -> Option<(char, usize)>
    requires inside { at < length line.now }
    requires back { slice_index line.now at ≡ 0x5C }
    ensures found { IfSome result (λ r. EscapeAt in_string line.now at r.0 r.1) }
    ensures none { IfNone result (Stops in_string (drop at line.now)) }
{
    match letter(byte_at(line, at + 1)) {
        Some(c) => Some((c, at + 2)),
        None => uchar(line, at),
    }
}

//! The bytes of IRIs and strings, escaped where they may not stand raw.

ghost use Rattle.std.specs.Prelude.{◌≡◌, ◌++◌, ◌<◌, ◌≤◌, OnOk, IsTrue, length};
ghost use Rattle.std.specs.List.{flat_map};
ghost use Rattle.nt_lex.specs.Scans.{IsRunAt};
ghost use Rattle.term_text.specs.CanonicalText.{hex_digit as digit_of};
ghost use Rattle.term_text.specs.Appending.{BeginsWith};
ghost use Rattle.term_text.specs.Escaping.{written_byte, is_escaped, is_raw};

use gk_base::NoMemory;
use nt_lex::{iri_run, string_run};

/// Where a byte stands.
#[derive(Clone, Copy)]
pub enum Inside {
    /// Between the angle brackets of an IRI.
    Brackets,
    /// Between the quotation marks of a string.
    Quotes,
}

impl Inside {
    /// The first place from `at` on with a byte that may not stand raw there, or the end.
    #[inline]
    fn run(self, text: &[u8], at: usize) -> usize
        requires { at ≤ length text.now }
        ensures { IsRunAt (is_raw self) text.now at result }
    {
        match self {
            Inside::Brackets => iri_run(text, at),
            Inside::Quotes => string_run(text, at),
        }
    }
}

/// Appends these bytes.
#[inline]
pub fn put(buf: &mut Vec<u8>, piece: &[u8]) -> Result<(), NoMemory>
    ensures ok { OnOk result (buf.new.items ≡ buf.old.items ++ piece.now) }
    ensures kept { BeginsWith buf.old.items buf.new.items }
{
    buf.extend_from_slice(piece)?;
    Ok(())
}

/// Appends these bytes as they are written there: each run that may stand raw is copied at once.
#[inline]
pub fn put_escaped(buf: &mut Vec<u8>, text: &[u8], inside: Inside) -> Result<(), NoMemory>
    ensures ok { OnOk result (buf.new.items ≡ buf.old.items ++ flat_map (written_byte inside) text.now) }
    ensures kept { BeginsWith buf.old.items buf.new.items }
{
    let mut end = inside.run(text, 0);
    put(buf, &text[..end])?;
    while end < text.len() {
        put_escape(buf, text[end], inside)?;
        let from = end + 1;
        end = inside.run(text, from);
        put(buf, &text[from..end])?;
    }
    Ok(())
}

/// Appends the escape of a byte that may not stand raw there.
fn put_escape(buf: &mut Vec<u8>, byte: u8, inside: Inside) -> Result<(), NoMemory>
    requires { IsTrue (is_escaped inside byte) }
    ensures ok { OnOk result (buf.new.items ≡ buf.old.items ++ written_byte inside byte) }
    ensures kept { BeginsWith buf.old.items buf.new.items }
{
    match inside {
        Inside::Brackets => {
            let digits = [hex_digit(byte >> 4), hex_digit(byte & 15)];
            put(buf, &[b'\\', b'u', b'0', b'0', digits[0], digits[1]])
        }
        Inside::Quotes => match byte {
            b'\n' => put(buf, b"\\n"),
            b'\r' => put(buf, b"\\r"),
            sign => put(buf, &[b'\\', sign]),
        },
    }
}

/// The upper-case hexadecimal digit of a number below 16.
fn hex_digit(number: u8) -> u8
    requires { number < 16 }
    ensures { result ≡ digit_of number }
{
    if number < 10 {
        b'0' + number
    } else {
        b'A' + (number - 10)
    }
}

//! Numbers as words.

ghost use Rattle.std.specs.Prelude.{◌≡◌, bytes_eq};
ghost use Rattle.std.specs.Fmt.{decimal};
ghost use Rattle.proof_file.specs.Words.{decimal_number};

/// Whether a word is the decimal digits of a number.
fn is_decimal(number: u32, word: &[u8]) -> bool
    ensures { result ≡ bytes_eq (decimal number) word.now }
{
    let mut left = number;
    let mut rest = word;
    while left >= 10 {
        let Some((last, front)) = rest.split_last() else {
            return false;
        };
        if u32::from(*last) != 48 + left % 10 {
            return false;
        }
        left /= 10;
        rest = front;
    }
    rest.len() == 1 && u32::from(rest[0]) == 48 + left
}

/// The number that a word is, from `low` on: its decimal digits, without sign and leading zero.
pub(crate) fn decimal_number(low: u32, word: &[u8]) -> Option<u32>
    ensures { result ≡ decimal_number low word.now }
{
    let mut value = 0u32;
    for byte in word {
        let digit = u32::from(byte.saturating_sub(b'0'));
        value = value.checked_mul(10)?.checked_add(digit)?;
    }
    if low <= value && is_decimal(value, word) {
        Some(value)
    } else {
        None
    }
}

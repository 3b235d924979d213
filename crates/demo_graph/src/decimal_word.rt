//! Numbers as words.

ghost use Rattle.std.specs.Prelude.{◌≡◌, ◌≢◌, ◌≤◌, ℕ, MatchOption};
ghost use Rattle.std.specs.Fmt.{decimal};

/// The least digit that a number from 1 on begins with. The signs are below it too.
const LEAST_FIRST_DIGIT: u8 = b'1';

/// The number from 1 to `most` that a word spells in decimal digits, without sign and without leading zero. None, where it
/// spells no such number. `most` is from 1 to 100,000.
pub fn number_of(word: &[u8], most: u32) -> Option<u32>
    requires { (1 ≤ most) × (most ≤ 100000) }
    ensures { MatchOption result ((n : ℕ) → 1 ≤ n → n ≤ most → word.now ≢ decimal n) (λ n. (1 ≤ n) × (n ≤ most) × (word.now ≡ decimal n)) }
{
    // `parse` takes a sign and leading zeros too.
    let Some(first) = word.first() else {
        return None;
    };
    if *first < LEAST_FIRST_DIGIT {
        return None;
    }
    let Ok(text) = str::from_utf8(word) else {
        return None;
    };
    let Ok(number) = text.parse() else {
        return None;
    };
    if number <= most { Some(number) } else { None }
}

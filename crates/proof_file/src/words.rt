//! Words of a line.

ghost use Rattle.std.specs.Prelude.{◌≡◌, ◌<◌, ◌≤◌, ◌∷◌, [], None, Some, IfNone, IfSome, length};
ghost use Rattle.nt_lex.specs.Scans.{IsRunAt};
ghost use Rattle.proof_file.specs.Words.{no_blank, words_of, two_of, FirstWord};

use nt_lex::skip_space;

/// The place after the word at `at`: the first tab or space from there on, or the end.
fn word_end(line: &[u8], at: usize) -> usize
    requires { at ≤ length line.now }
    ensures { IsRunAt no_blank line.now at result }
{
    let mut end = at;
    while end < line.len() && line[end] != b' ' && line[end] != b'\t' {
        end += 1;
    }
    end
}

/// Where the first word of a line begins and ends.
pub(crate) fn first_word(line: &[u8]) -> (usize, usize)
    ensures { FirstWord line.now result.0 result.1 }
{
    let begin = skip_space(line, 0);
    (begin, word_end(line, begin))
}

/// The first word of a line, and what follows it.
pub(crate) fn next_word(line: &[u8]) -> Option<(&[u8], &[u8])>
    ensures none { IfNone result (words_of line.now ≡ []) }
    ensures some { IfSome result (λ r. words_of line.now ≡ r.0.now ∷ words_of r.1.now) }
    ensures shorter { IfSome result (λ r. length r.1.now < length line.now) }
{
    let (begin, end) = first_word(line);
    if begin == line.len() {
        return None;
    }
    Some((&line[begin..end], &line[end..]))
}

/// The two words of a line, if there are two.
pub(crate) fn two_words(line: &[u8]) -> Option<(&[u8], &[u8])>
    ensures none { IfNone result (two_of (words_of line.now) ≡ None) }
    ensures some { IfSome result (λ r. two_of (words_of line.now) ≡ Some (r.0.now, r.1.now)) }
{
    let (first, rest) = next_word(line)?;
    let (second, rest) = next_word(rest)?;
    match next_word(rest) {
        None => Some((first, second)),
        Some(_) => None,
    }
}

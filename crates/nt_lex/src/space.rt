//! Skips the tabs and spaces that may stand between terms.

ghost use Rattle.std.specs.Prelude.{◌≤◌, length};
ghost use Rattle.nt_lex.specs.Chars.{is_blank};
ghost use Rattle.nt_lex.specs.Scans.{IsRunAt};

/// The first place from `at` on that holds neither tab nor space, or the end of the line.
#[inline]
pub fn skip_space(line: &[u8], at: usize) -> usize
    requires { at ≤ length line.now }
    ensures { IsRunAt is_blank line.now at result }
{
    let mut end = at;
    while end < line.len() && (line[end] == b' ' || line[end] == b'\t') {
        end += 1;
    }
    end
}

//! The lines of a text, one by one.

ghost use Rattle.std.specs.Prelude.{IfNone, IfSome, IsUtf8};
ghost use Rattle.nt_lex.specs.Scans.{IsRunAt};
ghost use Rattle.nt_reader.specs.Lines.{is_line_byte};
ghost use Rattle.proof_file.specs.Splitting.{HasNoEnd, IsSplit};

/// A text without its first line.
#[derive(Clone, Copy)]
pub(crate) struct Split<'a> {
    /// The line, without its end.
    pub(crate) line: &'a [u8],
    /// What follows its end.
    pub(crate) rest: &'a [u8],
    /// Whether its end is a carriage return alone. A line feed right after it would still belong to it.
    pub(crate) returned: bool,
}

/// The first place with a line feed or a carriage return, or the end.
fn line_run(text: &[u8]) -> usize
    ensures { IsRunAt is_line_byte text.now 0 result }
{
    let mut end = 0;
    while end < text.len() && text[end] != b'\n' && text[end] != b'\r' {
        end += 1;
    }
    end
}

/// The first line of a text, if one ends there.
pub(crate) fn split_line(text: &[u8]) -> Option<Split<'_>>
    ensures none { IfNone result (HasNoEnd text.now) }
    ensures some { IfSome result (λ split. IsSplit text.now split.line.now split.rest.now split.returned) }
    ensures utf8 { IfSome result (λ split. IsUtf8 text.now → IsUtf8 split.line.now × IsUtf8 split.rest.now) }
{
    let end = line_run(text);
    if end == text.len() {
        return None;
    }
    if text[end] == b'\r' && end + 1 < text.len() && text[end + 1] == b'\n' {
        return Some(Split {
            line: &text[..end],
            rest: &text[end + 2..],
            returned: false,
        });
    }
    Some(Split {
        line: &text[..end],
        rest: &text[end + 1..],
        returned: text[end] == b'\r',
    })
}

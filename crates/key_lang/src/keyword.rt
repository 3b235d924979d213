//! The first words of statements.

ghost use Rattle.std.specs.Prelude.{◌≡◌};
ghost use Rattle.key_lang.specs.Statements.{keyword_of};

/// The first word of a statement that is no triple.
#[derive(Clone, Copy, Debug, PartialEq, Eq)]
pub enum Keyword {
    Key,
    Entity,
    Any,
    Value,
    Folded,
    End,
}

/// The first word that this is.
pub(crate) fn keyword_of(text: &[u8]) -> Option<Keyword>
    ensures { result ≡ keyword_of text.now }
{
    if text == b"key".as_slice() {
        Some(Keyword::Key)
    } else if text == b"entity".as_slice() {
        Some(Keyword::Entity)
    } else if text == b"any".as_slice() {
        Some(Keyword::Any)
    } else if text == b"value".as_slice() {
        Some(Keyword::Value)
    } else if text == b"folded".as_slice() {
        Some(Keyword::Folded)
    } else if text == b"end".as_slice() {
        Some(Keyword::End)
    } else {
        None
    }
}

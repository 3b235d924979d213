use crate::ENOUGH;
use gk_base::{NoMemory, Term, Text};
use std::alloc::Global;

#[test]
fn copies_are_equal_and_order_is_that_of_bytes(rt: HostRuntime) {
    let text = Text::from_bytes(rt.alloc(), b"ab").expect(&rt, ENOUGH);
    assert!(rt; text.copy().expect(&rt, ENOUGH) == text);
    assert_eq!(rt; text.bytes(), b"ab".as_slice());
    let longer = Text::from_vec(b"abc".to_vec(rt.alloc()).expect(&rt, ENOUGH));
    assert!(rt; text < longer);
    assert!(rt; text != longer);
    assert_eq!(rt; longer.into_vec().as_slice(), b"abc".as_slice());
}

/// A text of two letters.
fn two_letters(alloc: Global) -> Result<Text, NoMemory> {
    Text::from_bytes(alloc, b"ab")
}

/// A literal with a language tag.
fn tagged(alloc: Global) -> Result<Term, NoMemory> {
    Ok(Term::Lang(two_letters(alloc)?, Text::from_bytes(alloc, b"en")?))
}

/// A literal with a datatype.
fn typed(alloc: Global) -> Result<Term, NoMemory> {
    Ok(Term::Typed(two_letters(alloc)?, Text::from_bytes(alloc, b"urn:t")?))
}

/// Whether a copy of the term is equal to it.
fn is_copied(term: &Term) -> Result<bool, NoMemory> {
    Ok(term.copy()? == *term)
}

#[test]
fn a_copy_of_a_plain_or_tagged_literal_is_equal(rt: HostRuntime) {
    let plain = Term::Plain(two_letters(rt.alloc()).expect(&rt, ENOUGH));
    assert!(rt; is_copied(&plain).expect(&rt, ENOUGH));
    let tagged = tagged(rt.alloc()).expect(&rt, ENOUGH);
    assert!(rt; is_copied(&tagged).expect(&rt, ENOUGH));
    assert!(rt; tagged != plain);
}

#[test]
fn a_copy_of_a_typed_literal_is_equal(rt: HostRuntime) {
    let typed = typed(rt.alloc()).expect(&rt, ENOUGH);
    assert!(rt; is_copied(&typed).expect(&rt, ENOUGH));
}

#[test]
fn a_copy_of_a_blank_node_is_equal(rt: HostRuntime) {
    let blank = Term::Blank(two_letters(rt.alloc()).expect(&rt, ENOUGH));
    assert!(rt; is_copied(&blank).expect(&rt, ENOUGH) && !blank.is_literal());
}

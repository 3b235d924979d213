use crate::sample::Sample;
use gk_base::Term;
use std::process::Abort;
use term_list::{TermKind, TermRef, Terms, Triples};

/// A term of each kind, and its kind.
static SAMPLES: [(Sample, TermKind); 5] = [
    (Sample::Iri(b"urn:a"), TermKind::Iri),
    (Sample::Blank(b"a"), TermKind::Blank),
    (Sample::Plain(b""), TermKind::Plain),
    (Sample::Typed(b"1", b"urn:t"), TermKind::Typed),
    (Sample::Lang(b"x", b"en"), TermKind::Lang),
];

/// Puts a term of each kind at the end of the list.
fn push_samples<R: Abort>(rt: &R, terms: &mut Terms) {
    for (sample, _) in &SAMPLES {
        terms.push(&sample.lent()).expect(rt, "enough memory");
    }
}

/// A list of a term of each kind.
fn sample_terms<R: AllocGlobal + Abort>(rt: &R) -> Terms {
    let mut terms = Terms::new(rt.alloc());
    push_samples(rt, &mut terms);
    terms
}

#[test]
fn terms_come_back_as_they_were(rt: HostRuntime) {
    let terms = sample_terms(&rt);
    assert_eq!(rt; terms.len(), 5);
    for (at, (sample, kind)) in SAMPLES.iter().enumerate() {
        let term = terms.get(at);
        assert!(rt; sample.is(&term));
        assert!(rt; term.kind() == *kind);
        assert_eq!(rt; term.is_literal(), at >= 2);
    }
}

#[test]
fn a_term_is_copied_and_told_from_the_next(rt: HostRuntime) {
    let terms = sample_terms(&rt);
    assert_eq!(rt; terms.len(), 5);
    for (at, (sample, _)) in SAMPLES.iter().enumerate() {
        let term = terms.get(at);
        let own = term.to_term(rt.alloc()).expect(&rt, "enough memory");
        assert!(rt; sample.is(&TermRef::of(&own)));
        assert!(rt; !term.is_same(&terms.get((at + 1) % 5)));
    }
}

#[test]
fn a_list_of_terms_is_filled_cut_short_and_emptied(rt: HostRuntime) {
    let mut terms = Terms::new(rt.alloc());
    assert!(rt; terms.is_empty());
    push_samples(&rt, &mut terms);
    assert_eq!(rt; terms.len(), 5);
    terms.truncate(1);
    assert_eq!(rt; terms.len(), 1);
    terms.clear();
    assert!(rt; terms.is_empty());
}

/// The terms of two triples.
static ROWS: [Sample; 6] = [
    Sample::Iri(b"urn:a"),
    Sample::Iri(b"urn:a"),
    Sample::Typed(b"1", b"urn:t"),
    Sample::Blank(b"a"),
    Sample::Iri(b"urn:a"),
    Sample::Lang(b"x", b"en"),
];

/// Puts a triple at the end of the list.
fn push_row<R: Abort>(rt: &R, triples: &mut Triples, row: (Sample, Sample, Sample)) {
    let (subject, predicate, object) = row;
    triples
        .push(&subject.lent(), &predicate.lent(), &object.lent())
        .expect(rt, "enough memory");
}

/// Puts the two triples at the end of the list.
fn push_rows<R: Abort>(rt: &R, triples: &mut Triples) {
    push_row(rt, triples, (ROWS[0], ROWS[1], ROWS[2]));
    push_row(rt, triples, (ROWS[3], ROWS[4], ROWS[5]));
}

/// A list of the two triples.
fn row_triples<R: AllocGlobal + Abort>(rt: &R) -> Triples {
    let mut triples = Triples::new(rt.alloc());
    push_rows(rt, &mut triples);
    triples
}

#[test]
fn triples_come_back_as_they_were(rt: HostRuntime) {
    let triples = row_triples(&rt);
    assert_eq!(rt; triples.terms().len(), 6);
    for (at, sample) in ROWS.iter().enumerate() {
        let own = triples
            .terms()
            .get(at)
            .to_term(rt.alloc())
            .expect(&rt, "enough memory");
        assert!(rt; own == sample.made(&rt));
    }
}

/// Whether this is the last term of the two triples, with its tag.
fn is_tagged(term: &Term) -> bool {
    match term {
        Term::Lang(form, tag) => form.bytes() == b"x".as_slice() && tag.bytes() == b"en".as_slice(),
        _ => false,
    }
}

#[test]
fn a_tag_comes_back_with_its_form(rt: HostRuntime) {
    let triples = row_triples(&rt);
    assert_eq!(rt; triples.terms().len(), 6);
    let last = triples
        .terms()
        .get(5)
        .to_term(rt.alloc())
        .expect(&rt, "enough memory");
    assert!(rt; is_tagged(&last));
}

#[test]
fn a_list_of_triples_is_filled_and_emptied(rt: HostRuntime) {
    let mut triples = Triples::new(rt.alloc());
    assert_eq!(rt; triples.len(), 0);
    push_rows(&rt, &mut triples);
    assert_eq!(rt; triples.len(), 2);
    triples.clear();
    assert_eq!(rt; triples.len(), 0);
}

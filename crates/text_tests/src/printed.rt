use crate::sample::Sample;
use gk_base::{Term, Triple};
use std::process::Abort;
use std::thread::Threads;
use term_table::Names;
use term_text::{Report, put_term, put_triple, report};

/// Terms, and how they are appended to a buffer that holds a plus sign.
static WRITTEN: [(Sample, &[u8]); 7] = [
    (Sample::Plain(b"a\t\"\\"), b"+\"a\t\\\"\\\\\""),
    (
        Sample::Plain(b"\n\r\x01'\x7F\xFF"),
        b"+\"\\n\\r\x01'\x7F\xFF\"",
    ),
    (Sample::Iri(b"urn:a b"), b"+<urn:a\\u0020b>"),
    (
        Sample::Iri(b"u:\x1F{\\!\x7F\xFF"),
        b"+<u:\\u001F\\u007B\\u005C!\x7F\xFF>",
    ),
    (Sample::Blank(b"b.1"), b"+_:b.1"),
    (Sample::Typed(b"1", b"urn:t"), b"+\"1\"^^<urn:t>"),
    (Sample::Lang(b"x", b"en-us"), b"+\"x\"@en-us"),
];

/// A plus sign, and the term after it.
fn written<R: AllocGlobal + Abort>(rt: &R, term: &Term) -> Vec<u8> {
    let mut buf = b"+".to_vec(rt.alloc()).expect(rt, "enough memory");
    put_term(&mut buf, term).expect(rt, "enough memory");
    buf
}

#[test]
fn terms_are_written_canonically(rt: HostRuntime) {
    for (sample, text) in &WRITTEN {
        let buf = written(&rt, &sample.made(&rt));
        assert_eq!(rt; buf.as_slice(), *text);
    }
}

/// A triple with a literal.
fn triple<R: AllocGlobal + Abort>(rt: &R) -> Triple {
    Triple {
        subject: Sample::Iri(b"urn:a").made(rt),
        predicate: Sample::Iri(b"urn:p").made(rt),
        object: Sample::Plain(b"1").made(rt),
    }
}

#[test]
fn a_triple_is_a_line(rt: HostRuntime) {
    let triple = triple(&rt);
    let mut buf = Vec::new(rt.alloc());
    put_triple(&mut buf, &triple).expect(&rt, "enough memory");
    assert_eq!(rt; buf.as_slice(), b"<urn:a> <urn:p> \"1\" .\n".as_slice());
}

/// Four names. By their texts their order is 3, 0, 2, 1.
static NAMES: [Sample; 4] = [
    Sample::Iri(b"urn:z"),
    Sample::Blank(b"b.1"),
    Sample::Blank(b":x"),
    Sample::Plain(b"a"),
];

/// Labels of the names, and the report of their classes.
static REPORTS: [([u32; 4], &str); 6] = [
    ([0, 0, 0, 3], "<urn:z> _::x _:b.1\n"),
    ([0, 1, 2, 3], ""),
    ([0, 1, 0, 1], "\"a\" _:b.1\n<urn:z> _::x\n"),
    (
        [9, 4_000_000_000, 4_000_000_000, 9],
        "\"a\" <urn:z>\n_::x _:b.1\n",
    ),
    ([7, 7, 7, 7], "\"a\" <urn:z> _::x _:b.1\n"),
    ([5, 1, 1, 9], "_::x _:b.1\n"),
];

/// A function hands the table out, so that no proof looks into it.
fn reports() -> &'static [([u32; 4], &'static str)] {
    &REPORTS
}

/// The four names.
fn four_names<R: AllocGlobal + Abort>(rt: &R) -> Names {
    let mut names = Names::new(rt.alloc());
    for sample in &NAMES {
        assert!(rt; names.len() < 4);
        names.intern(sample.made(rt)).expect(rt, "enough memory");
    }
    names
}

/// The report of names with these labels. It promises nothing, so that the proof of the test has little to carry.
fn reported<R: AllocGlobal + Abort + Threads + Sync>(
    rt: &R,
    threads: u32,
    names: &Names,
    labels: &[u32],
) -> Report {
    assert_eq!(rt; names.len() as usize, labels.len());
    report(rt, rt.alloc(), threads, names, labels).expect(rt, "enough memory")
}

/// The report has this text, lent and given away.
fn expect_text(rt: &impl Abort, printed: Report, labels: &[u32; 4], expected: &str) {
    assert_eq!(rt; printed.bytes(), expected.as_bytes(), "at {labels:?}");
    assert_eq!(rt; printed.into_vec().as_slice(), expected.as_bytes());
}

#[test]
fn the_report_prints_shared_labels_by_text(rt: HostRuntime) {
    let names = four_names(&rt);
    assert_eq!(rt; names.len(), 4);
    for (labels, expected) in reports() {
        for threads in [1, 4] {
            expect_text(
                &rt,
                reported(&rt, threads, &names, labels),
                labels,
                expected,
            );
        }
    }
}

mod files;

use gk_base::NoMemory;
use key_lang::{KeyFault, KeyFile, KeyRefusal, KeyStop, put_keys, read_keys};
use std::alloc::{AllocError, Global};
use std::test::Fail;

/// What a key file says: keys, by their canonical text, or a refusal.
#[derive(Drop)]
pub(crate) enum Says {
    Keys(&'static [u8]),
    Refused(u64, KeyFault),
}

/// A key of one constant, in the canonical text.
pub(crate) const ONE_CONSTANT: &[u8] = b"key k <urn:T>\n?x <urn:p> \"1\"\nend\n";

fn has_text(alloc: Global, keys: &KeyFile, text: &[u8]) -> Result<bool, NoMemory> {
    let mut buf = Vec::new(alloc);
    put_keys(&mut buf, keys)?;
    Ok(buf.as_slice() == text)
}

fn file_says(alloc: Global, bytes: &[u8], limit: u32, wanted: &Says) -> Result<bool, NoMemory> {
    match read_keys(alloc, bytes, u64::from(limit)) {
        Ok(keys) => match wanted {
            Says::Keys(text) => has_text(alloc, &keys, text),
            Says::Refused(_, _) => Ok(false),
        },
        Err(KeyStop::NoMemory) => Err(NoMemory),
        Err(KeyStop::Fault(refusal)) => match wanted {
            Says::Keys(_) => Ok(false),
            Says::Refused(line, fault) => Ok(
                refusal
                    == KeyRefusal {
                        line: *line,
                        fault: *fault,
                    },
            ),
        },
    }
}

#[test]
fn each_file_says_its_keys_or_its_first_fault(rt: HostRuntime) -> Result<(), Fail> {
    for (bytes, wanted) in files::all() {
        let is = file_says(rt.alloc(), bytes, 1 << 20, wanted)?;
        let length = bytes.len();
        assert!(rt; is, "file of {length} bytes: {bytes:?}");
    }
    Ok(())
}

/// A good key file, and one whose first line ends with CR LF.
static LIMITED: [(&[u8], u32, Says); 9] = [
    (ONE_CONSTANT, 33, Says::Keys(ONE_CONSTANT)),
    (ONE_CONSTANT, 32, Says::Refused(3, KeyFault::FileTooLong)),
    (ONE_CONSTANT, 29, Says::Refused(3, KeyFault::FileTooLong)),
    (ONE_CONSTANT, 28, Says::Refused(2, KeyFault::FileTooLong)),
    (b"foo\nbar", 3, Says::Refused(1, KeyFault::FileTooLong)),
    (b"foo\nbar", 4, Says::Refused(1, KeyFault::UnknownStatement)),
    (b"# c\r\n", 4, Says::Refused(1, KeyFault::FileTooLong)),
    (b"# c\r\n", 5, Says::Keys(b"")),
    (b"", 0, Says::Keys(b"")),
];

#[test]
fn the_byte_after_the_limit_is_refused_among_the_lines(rt: HostRuntime) -> Result<(), Fail> {
    for (bytes, limit, wanted) in &LIMITED {
        let is = file_says(rt.alloc(), bytes, *limit, wanted)?;
        assert!(rt; is, "limit {limit}: {bytes:?}");
    }
    Ok(())
}

/// Appends a piece, a number of two digits and another piece.
fn put_numbered(
    buf: &mut Vec<u8>,
    front: &[u8],
    number: u8,
    back: &[u8],
) -> Result<(), AllocError> {
    buf.extend_from_slice(front)?;
    buf.extend_from_slice(&[b'0' + number / 10 % 10, b'0' + number % 10])?;
    buf.extend_from_slice(back)
}

/// So many lines of a piece, a number from 10 on and another piece, after a first part.
fn numbered(
    alloc: Global,
    first: &[u8],
    count: u8,
    front: &[u8],
    back: &[u8],
) -> Result<Vec<u8>, AllocError> {
    let mut buf = Vec::from_slice(alloc, first)?;
    for number in 0..count {
        put_numbered(&mut buf, front, number, back)?;
    }
    Ok(buf)
}

/// A line that is refused after a text, its number, and the fault.
type Refused = (&'static [u8], u64, KeyFault);

/// The first of the lines that is not refused so after this text, or how many lines there are.
fn first_wrong(alloc: Global, text: &[u8], lines: &[Refused]) -> Result<usize, Fail> {
    for (place, (line, number, fault)) in lines.iter().enumerate() {
        let mut buf = Vec::from_slice(alloc, text)?;
        buf.extend_from_slice(line)?;
        if !file_says(alloc, &buf, 1 << 20, &Says::Refused(*number, *fault))? {
            return Ok(place);
        }
    }
    Ok(lines.len())
}

/// Lines after 64 keys.
static AFTER_64_KEYS: [Refused; 3] = [
    (b"key l <urn:T>", 193, KeyFault::TooManyKeys),
    (b"key A <T>", 193, KeyFault::TooManyKeys),
    (b"end", 193, KeyFault::StatementOutOfPlace),
];

/// Whether this text says so many keys.
fn has_keys(alloc: Global, text: &[u8], count: usize) -> bool {
    match read_keys(alloc, text, 1 << 20) {
        Ok(keys) => keys.len() == count,
        Err(_) => false,
    }
}

#[test]
fn a_file_has_64_keys(rt: HostRuntime) -> Result<(), Fail> {
    let alloc = rt.alloc();
    let back = b" <urn:T>\n?x <urn:p> \"1\"\nend\n";
    let text = numbered(alloc, b"", 64, b"key k", back)?;
    assert!(rt; has_keys(alloc, &text, 64));
    assert_eq!(rt; first_wrong(alloc, &text, &AFTER_64_KEYS)?, 3);
    Ok(())
}

/// Lines in a key with 16 nodes.
static AFTER_16_NODES: [Refused; 4] = [
    (b"value $w", 17, KeyFault::TooManyNodes),
    (b"value $v00", 17, KeyFault::VariableDeclaredTwice),
    (b"?x <urn:p> \"1\"", 17, KeyFault::TooManyNodes),
    (b"?x <urn:p> $v14", 17, KeyFault::FileEndsInsideAKey),
];

#[test]
fn a_key_has_16_nodes(rt: HostRuntime) -> Result<(), Fail> {
    let alloc = rt.alloc();
    let text = numbered(alloc, b"key k <urn:T>\n", 15, b"value $v", b"\n")?;
    assert_eq!(rt; first_wrong(alloc, &text, &AFTER_16_NODES)?, 4);
    Ok(())
}

/// Lines in a key with 32 triples, and one in a key that has 16 nodes too.
static AFTER_32_TRIPLES: [Refused; 3] = [
    (b"?x <urn:q> ?x", 34, KeyFault::TooManyTriplesInKey),
    (b"?x <urn:q> \"1\"", 34, KeyFault::TooManyTriplesInKey),
    (b"?x <urn:p31> ?x", 34, KeyFault::FileEndsInsideAKey),
];

static AFTER_BOTH: [Refused; 1] = [(b"?x <urn:q> \"1\"", 49, KeyFault::TooManyNodes)];

#[test]
fn a_key_has_32_triples(rt: HostRuntime) -> Result<(), Fail> {
    let alloc = rt.alloc();
    let text = numbered(alloc, b"key k <urn:T>\n", 32, b"?x <urn:p", b"> ?x\n")?;
    assert_eq!(rt; first_wrong(alloc, &text, &AFTER_32_TRIPLES)?, 3);
    let nodes = numbered(alloc, &text, 15, b"value $v", b"\n")?;
    assert_eq!(rt; first_wrong(alloc, &nodes, &AFTER_BOTH)?, 1);
    Ok(())
}

/// Some faults and their texts.
static FAULTS: [(KeyFault, &[u8]); 5] = [
    (KeyFault::RelativeIri, b"relative IRI"),
    (KeyFault::UnknownStatement, b"unknown statement"),
    (
        KeyFault::SubjectMustBeAnEntityVariableOrWildcard,
        b"subject must be an entity variable or wildcard",
    ),
    (KeyFault::NotConnected, b"not connected"),
    (KeyFault::FileEndsInsideAKey, b"file ends inside a key"),
];

#[test]
fn each_fault_has_its_text(rt: HostRuntime) {
    for (fault, text) in &FAULTS {
        let named = fault.text();
        assert!(rt; named == *text);
    }
}

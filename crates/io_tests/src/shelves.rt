use crate::{ENOUGH, FILE};
use gk_base::{NoMemory, Text};
use gk_io::{MemShelf, Shelf, SureShelf};
use std::alloc::Global;

/// Two files named `a` and one named `b`.
fn three_files(alloc: Global) -> Result<Vec<(Text, Vec<u8>)>, NoMemory> {
    let mut files = Vec::new(alloc);
    for (name, bytes) in [(b"a", b"xy".as_slice()), (b"a", b"z"), (b"b", b"")] {
        files.push((Text::from_bytes(alloc, name)?, bytes.to_vec(alloc)?))?;
    }
    Ok(files)
}

/// What to look for, or none to read; the bytes read, or none at a failure.
static CALLS: [(Option<&[u8]>, Option<&[u8]>); 9] = [
    (Some(b"a"), Some(b"")),
    (None, Some(b"x")),
    (None, None),
    (None, Some(b"y")),
    (Some(b"c"), None),
    (None, Some(b"")),
    (Some(b"a"), None),
    (Some(b"b"), Some(b"")),
    (None, Some(b"")),
];

/// A shelf that gives one byte at once, and fails at its third call and its seventh.
fn slow_shelf(alloc: Global) -> Result<MemShelf, NoMemory> {
    let fail = [3, 7].to_vec(alloc)?;
    Ok(MemShelf::new(three_files(alloc)?, 1, fail))
}

/// Finds the file of this name, or else reads, and answers how many bytes were read, and none at a failure.
fn count_of(
    alloc: Global,
    shelf: &mut MemShelf,
    wanted: Option<&[u8]>,
    buf: &mut [u8],
) -> Result<Option<usize>, NoMemory> {
    let count = match wanted {
        Some(name) => shelf.find(Text::from_bytes(alloc, name)?).map(|_| 0),
        None => shelf.read(buf),
    };
    Ok(count.ok())
}

#[test]
fn mem_shelf_gives_one_byte_at_once_and_fails_where_it_is_told_to(rt: HostRuntime) {
    let mut shelf = slow_shelf(rt.alloc()).expect(&rt, ENOUGH);
    for (call, (wanted, answer)) in CALLS.iter().enumerate() {
        let mut buf = [0; 4];
        let count = count_of(rt.alloc(), &mut shelf, *wanted, &mut buf).expect(&rt, ENOUGH);
        assert_eq!(rt; count, answer.map(|bytes| bytes.len()), "{call}");
        if let Some(bytes) = answer {
            assert!(rt; buf.starts_with(bytes), "{call}");
        }
    }
}

#[test]
fn sure_shelf_has_an_empty_file_of_every_other_name(rt: HostRuntime) {
    let mut shelf = SureShelf::new(three_files(rt.alloc()).expect(&rt, ENOUGH));
    for (name, bytes) in [(b"a", b"xy".as_slice()), (b"c", b"")] {
        let name = Text::from_bytes(rt.alloc(), name).expect(&rt, ENOUGH);
        shelf.find(name).expect(&rt, FILE);
        let mut buf = [0; 4];
        assert_eq!(rt; shelf.read(&mut buf), Ok(bytes.len()));
        assert!(rt; buf.starts_with(bytes));
    }
}

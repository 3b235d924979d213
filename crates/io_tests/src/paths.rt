use crate::{ENOUGH, FILE};
use gk_base::Text;
use gk_io::{DirShelf, Failed, Shelf};
use std::alloc::Global;
use std::fs;
use std::process::Abort;
use std::random::RandomSource;
use std::rt::Files;

/// What a shelf still has to read.
fn rest_of<S: Shelf>(rt: &impl Abort, alloc: Global, shelf: &mut S) -> Vec<u8> {
    let mut buf = vec![in alloc; 0; 65_536].expect(rt, ENOUGH);
    let mut bytes = Vec::new(alloc);
    for _ in 0..u64::MAX {
        let count = shelf.read(&mut buf).expect(rt, FILE);
        if count == 0 {
            break;
        }
        bytes.extend_from_slice(&buf[..count]).expect(rt, ENOUGH);
    }
    bytes
}

fn name(rt: &impl Abort, alloc: Global, bytes: &[u8]) -> Text {
    Text::from_bytes(alloc, bytes).expect(rt, ENOUGH)
}

/// Turns the shelf to the file at this path.
fn turn_to<S: Shelf>(rt: &impl Abort, alloc: Global, shelf: &mut S, path: &str) {
    shelf
        .find(name(rt, alloc, path.as_bytes()))
        .expect(rt, FILE);
}

/// So many bytes, no two near each other the same.
fn numbered(rt: &impl Abort, alloc: Global, size: usize) -> Vec<u8> {
    let mut bytes = Vec::new(alloc);
    for place in 0..size {
        bytes.push((place % 251) as u8).expect(rt, ENOUGH);
    }
    bytes
}

/// What a shelf reads of a file in which these bytes were written.
fn read_back<R: Files + RandomSource + Abort>(
    rt: &R,
    alloc: Global,
    path: &str,
    written: &[u8],
) -> Vec<u8> {
    fs::write(rt, path, written).expect(rt, FILE);
    let mut shelf = DirShelf::new(rt);
    turn_to(rt, alloc, &mut shelf, path);
    let read = rest_of(rt, alloc, &mut shelf);
    fs::remove_file(rt, path).expect(rt, FILE);
    read
}

#[test]
fn passes_on_what_a_file_holds(rt: HostRuntime) {
    for size in [0usize, 65_536, 65_537] {
        let written = numbered(&rt, rt.alloc(), size);
        let read = read_back(&rt, rt.alloc(), "io_tests_dir_shelf.tmp", &written);
        assert!(rt; read == written, "{size}");
    }
}

/// Fails to find a name that is not UTF-8, and one that no file has.
fn fails_to_find<S: Shelf>(rt: &impl Abort, alloc: Global, shelf: &mut S) {
    for wrong in [
        b"io_tests_\xff.tmp".as_slice(),
        b"io_tests_no_such_file.tmp",
    ] {
        assert_eq!(rt; shelf.find(name(rt, alloc, wrong)), Err(Failed));
    }
}

#[test]
fn a_failed_find_leaves_the_file_before(rt: HostRuntime) {
    let path = "io_tests_failed_find.tmp";
    fs::write(&rt, path, "content").expect(&rt, FILE);
    let mut shelf = DirShelf::new(&rt);
    assert_eq!(rt; shelf.read(&mut [0; 4]), Ok(0), "nothing was found so far");
    turn_to(&rt, rt.alloc(), &mut shelf, path);
    fails_to_find(&rt, rt.alloc(), &mut shelf);
    let read = rest_of(&rt, rt.alloc(), &mut shelf);
    fs::remove_file(&rt, path).expect(&rt, FILE);
    assert_eq!(rt; read.as_slice(), b"content".as_slice());
}

/// Reads the first three bytes of the file that was found at this path.
fn reads_the_front<S: Shelf>(rt: &impl Abort, shelf: &mut S, path: &str, content: &[u8]) {
    let mut front = [0; 3];
    assert_eq!(rt; shelf.read(&mut front), Ok(3));
    assert!(rt; content.starts_with(&front), "{path}");
}

/// Reads the front of the file at this path, turns to it again, and reads it whole.
fn is_read_from_its_first_byte<S: Shelf>(
    rt: &impl Abort,
    alloc: Global,
    shelf: &mut S,
    path: &str,
    content: &[u8],
) {
    turn_to(rt, alloc, shelf, path);
    reads_the_front(rt, shelf, path, content);
    turn_to(rt, alloc, shelf, path);
    let rest = rest_of(rt, alloc, shelf);
    assert_eq!(rt; rest.as_slice(), content, "{path}");
}

#[test]
fn each_find_turns_to_the_first_byte_of_its_file(rt: HostRuntime) {
    let (one, two) = ("io_tests_find_one.tmp", "io_tests_find_two.tmp");
    fs::write(&rt, one, "first file").expect(&rt, FILE);
    fs::write(&rt, two, "second").expect(&rt, FILE);
    let mut shelf = DirShelf::new(&rt);
    for (path, content) in [
        (one, b"first file".as_slice()),
        (two, b"second"),
        (two, b"second"),
        (one, b"first file"),
    ] {
        is_read_from_its_first_byte(&rt, rt.alloc(), &mut shelf, path, content);
    }
    fs::remove_file(&rt, one).expect(&rt, FILE);
    fs::remove_file(&rt, two).expect(&rt, FILE);
}

/// Whether the shelf gives two seeds, of 64 random bits each.
fn gives_two_seeds<S: Shelf>(shelf: &S) -> bool {
    let (one, two) = (shelf.hash_seed(), shelf.hash_seed());
    one.is_some() && two.is_some() && one != two
}

#[test]
fn guesses_a_size(rt: HostRuntime) {
    let path = "io_tests_size.tmp";
    fs::write(&rt, path, "content").expect(&rt, FILE);
    let mut shelf = DirShelf::new(&rt);
    assert_eq!(rt; shelf.size_hint(), 0, "nothing was found so far");
    turn_to(&rt, rt.alloc(), &mut shelf, path);
    assert_eq!(rt; shelf.size_hint(), 7);
    fs::remove_file(&rt, path).expect(&rt, FILE);
}

#[test]
fn guesses_a_seed(rt: HostRuntime) {
    let path = "io_tests_seed.tmp";
    fs::write(&rt, path, "content").expect(&rt, FILE);
    let mut shelf = DirShelf::new(&rt);
    turn_to(&rt, rt.alloc(), &mut shelf, path);
    fs::remove_file(&rt, path).expect(&rt, FILE);
    assert!(rt; gives_two_seeds(&shelf), "two seeds of 64 random bits");
}

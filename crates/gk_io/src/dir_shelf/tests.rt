//! What callers can't see: the count of failures, and how often a call is tried again. The other tests of `DirShelf` are in
//! `io_tests`.

use crate::dir_shelf::read_some;
use crate::retries::tried;
use crate::{DirShelf, Failed, Shelf};
use gk_base::Text;
use std::alloc::Global;
use std::fs;
use std::io::{self, ErrorKind, Read};
use std::test::Fail;

fn name(alloc: Global, bytes: &[u8]) -> Result<Text, Fail> {
    Ok(Text::from_bytes(alloc, bytes)?)
}

#[test]
fn each_failed_find_is_counted(rt: HostRuntime) -> Result<(), Fail> {
    let path = "gk_io_failed_find_test.tmp";
    fs::write(&rt, path, "content")?;
    let mut shelf = DirShelf::new(&rt);
    assert_eq!(rt; shelf.read(&mut [0; 4]), Ok(0), "nothing was found so far");
    shelf.find(name(rt.alloc(), path.as_bytes())?)?;
    for (wrong, faults) in [
        (b"gk_io_\xff.tmp".as_slice(), 1),
        (b"gk_io_no_such_file.tmp".as_slice(), 2),
    ] {
        assert_eq!(rt; shelf.find(name(rt.alloc(), wrong)?), Err(Failed));
        assert_eq!(rt; shelf.faults, faults);
    }
    fs::remove_file(&rt, path)?;
    Ok(())
}

/// A reader of zeros, each of whose calls is interrupted so often before it is answered.
#[derive(Drop)]
struct SlowReader {
    interruptions: u32,
}

impl Read for SlowReader {
    fn read(&mut self, buf: &mut [u8]) -> io::Result<usize> {
        if self.interruptions > 0 {
            self.interruptions -= 1;
            return Err(io::Error::from(ErrorKind::Interrupted));
        }
        Ok(buf.len())
    }
}

#[test]
fn tries_an_interrupted_read_again(rt: HostRuntime) {
    for (interruptions, answer) in [(0, Ok(4)), (1000, Ok(4)), (1001, Err(Failed))] {
        let mut reader = SlowReader { interruptions };
        assert_eq!(rt;
            read_some(&mut reader, &mut [0; 4]),
            answer,
            "{interruptions}"
        );
    }
}

#[test]
fn tries_an_interrupted_call_again(rt: HostRuntime) {
    for (interruptions, answer) in [(0, Ok(7)), (1000, Ok(7)), (1001, Err(Failed))] {
        let mut left: u32 = interruptions;
        let answered = tried(|| {
            if left > 0 {
                left -= 1;
                return Err(io::Error::from(ErrorKind::Interrupted));
            }
            Ok(7)
        });
        assert_eq!(rt; answered, answer, "{interruptions}");
    }
    let refused: Result<u8, Failed> = tried(|| Err(io::Error::from(ErrorKind::NotFound)));
    assert_eq!(rt; refused, Err(Failed));
}

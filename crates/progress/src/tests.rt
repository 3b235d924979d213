use crate::{CountedShelf, Counts, Line, LineSink};
use gk_base::Text;
use gk_io::{Shelf, SureShelf, SureSink, write_all};
use std::alloc::Global;
use std::process::Abort;

const ENOUGH: &str = "enough memory";

fn name(rt: &impl Abort, alloc: Global) -> Text {
    Text::from_bytes(alloc, b"file").expect(rt, ENOUGH)
}

/// What is counted where a file of ten bytes is read in pieces of four.
fn counted(rt: &impl Abort, alloc: Global, is_on: bool) -> (u64, u64) {
    let counts = Counts::new(is_on);
    let mut files = Vec::new(alloc);
    let bytes = vec![in alloc; 7; 10].expect(rt, ENOUGH);
    files.push((name(rt, alloc), bytes)).expect(rt, ENOUGH);
    let mut shelf = CountedShelf::new(SureShelf::new(files), &counts);
    assert!(rt; shelf.find(name(rt, alloc)).is_ok());
    let mut buf = [0; 4];
    for wanted in [4, 4, 2, 0] {
        assert!(rt; shelf.read(&mut buf) == Ok(wanted));
    }
    counts.add_search();
    counts.so_far()
}

#[test]
fn bytes_and_searches_are_counted_where_they_are_told(rt: HostRuntime) {
    assert!(rt; counted(&rt, rt.alloc(), true) == (10, 1));
    assert!(rt; counted(&rt, rt.alloc(), false) == (0, 0));
}

#[test]
fn a_line_ends_with_the_first_byte_that_is_written(rt: HostRuntime) {
    let counts = Counts::new(true);
    let line = Line::new(&counts);
    let sink = SureSink::new(rt.alloc(), 10).expect(&rt, ENOUGH);
    let mut sink = LineSink::new(sink, &line, &rt);
    assert!(rt; write_all(&mut sink, b"text").is_ok());
    assert!(rt; sink.sink.bytes() == b"text".as_slice());
    // (it would go on for ever otherwise)
    line.tell(&rt);
}

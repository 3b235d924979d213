ghost use Rattle.std.specs.Prelude.{◌-◌, ◌^◌, None};

use crate::ENOUGH;
use gk_io::{Failed, MemSink, Sink, SureSink, write_all};
use std::alloc::Global;
use std::process::Abort;

const TEXT: &[u8] = b"<urn:a> <urn:b>\n";

/// The most bytes at once, the room, and the call that fails; what is then taken of the text.
static FRONTS: [(usize, usize, u64, &[u8]); 3] = [
    (5, 100, 2, b"<urn:"),
    (5, 100, 9, b"<urn:a> <urn:b>\n"),
    (5, 7, 9, b"<urn:a>"),
];

/// A sink that takes so many bytes at once, so many in all, and fails at this call.
fn mem_sink(rt: &impl Abort, alloc: Global, most: usize, room: usize, fail: u64) -> MemSink {
    assert!(rt; most > 0);
    let fail = [fail].to_vec(alloc).expect(rt, ENOUGH);
    MemSink::new(alloc, most, room, fail).expect(rt, ENOUGH)
}

/// Such a sink to which the text was written, and whether that went well.
fn written(rt: &impl Abort, alloc: Global, most: usize, room: usize, fail: u64) -> (bool, MemSink) {
    let mut sink = mem_sink(rt, alloc, most, room, fail);
    let is_written = write_all(&mut sink, TEXT).is_ok();
    (is_written, sink)
}

#[test]
fn mem_sink_keeps_a_front_of_the_text(rt: HostRuntime) {
    for (most, room, fail, taken) in &FRONTS {
        let (is_written, sink) = written(&rt, rt.alloc(), *most, *room, *fail);
        assert_eq!(rt;
            is_written,
            taken.len() == TEXT.len(),
            "{most} {room} {fail}"
        );
        assert_eq!(rt; sink.bytes(), *taken, "{most} {room} {fail}");
    }
}

#[test]
fn mem_sink_without_room_fails_at_an_empty_piece(rt: HostRuntime) {
    let mut full = MemSink::new(rt.alloc(), 1, 0, Vec::new(rt.alloc())).expect(&rt, ENOUGH);
    assert_eq!(rt; full.write(b""), Err(Failed));
}

#[test]
fn sure_sink_keeps_what_fits(rt: HostRuntime) {
    let mut sink = SureSink::new(rt.alloc(), 4).expect(&rt, ENOUGH);
    for (piece, kept) in [
        (b"abc", b"abc".as_slice()),
        (b"def", b"abcd"),
        (b"ghi", b"abcd"),
    ] {
        assert_eq!(rt; sink.write(piece), Ok(3));
        assert_eq!(rt; sink.bytes(), kept);
    }
}

/// A sink that takes one byte of each piece, and notes how long the pieces were.
#[derive(Drop)]
struct SlowSink {
    lengths: Vec<usize>,
}

impl Sink for SlowSink {
    ghost faults = { λ _. 2 ^ 64 - 1 };

    ghost taken = { λ _. None };

    fn write(&mut self, piece: &[u8]) -> Result<usize, Failed> {
        if self.lengths.push(piece.len()).is_err() {
            return Err(Failed);
        }
        Ok(piece.len().min(1))
    }
}

#[test]
fn each_write_is_handed_all_that_is_left(rt: HostRuntime) {
    let mut sink = SlowSink {
        lengths: Vec::new(rt.alloc()),
    };
    write_all(&mut sink, b"text").expect(&rt, "a whole text");
    assert_eq!(rt; sink.lengths.as_slice(), [4, 3, 2, 1].as_slice());
}

use crate::{OutSink, Sink, write_all};
use std::io::{self, ErrorKind, Write};
use std::test::Fail;

/// A writer each of whose calls is interrupted so often before it is answered. It takes at most `most` bytes at
/// once.
#[derive(Drop)]
struct SlowWriter {
    interruptions: u32,
    interrupted: u32,
    most: usize,
    flush_fails: bool,
    flushes: u32,
}

impl SlowWriter {
    fn interrupts(&mut self) -> bool {
        if self.interrupted < self.interruptions {
            self.interrupted += 1;
            return true;
        }
        self.interrupted = 0;
        false
    }
}

impl Write for SlowWriter {
    fn write(&mut self, piece: &[u8]) -> io::Result<usize> {
        if self.interrupts() {
            return Err(io::Error::from(ErrorKind::Interrupted));
        }
        Ok(piece.len().min(self.most))
    }

    fn flush(&mut self) -> io::Result<()> {
        if self.interrupts() {
            return Err(io::Error::from(ErrorKind::Interrupted));
        }
        if self.flush_fails {
            return Err(io::Error::from(ErrorKind::BrokenPipe));
        }
        self.flushes = self.flushes.saturating_add(1);
        Ok(())
    }
}

#[test]
fn tries_again_and_counts_what_still_fails(rt: HostRuntime) -> Result<(), Fail> {
    // interruptions, most, whether flushing fails, piece: the answer (none where it failed) and the flushes
    let table = [
        (0, 3, false, b"abcde".as_slice(), Some(3), 1),
        (1000, 3, false, b"abcde".as_slice(), Some(3), 1),
        (1001, 3, false, b"abcde".as_slice(), None, 0),
        (0, 0, false, b"abcde".as_slice(), None, 0),
        (0, 0, false, b"".as_slice(), Some(0), 1),
        (0, 3, true, b"abcde".as_slice(), None, 0),
    ];
    for (interruptions, most, flush_fails, piece, answer, flushes) in table {
        let mut sink = OutSink::new(SlowWriter {
            interruptions,
            interrupted: 0,
            most,
            flush_fails,
            flushes: 0,
        });
        assert_eq!(rt;
            sink.write(piece).ok(),
            answer,
            "{interruptions} {most} {flush_fails}"
        );
        assert_eq!(rt;
            sink.writer.flushes,
            flushes,
            "{interruptions} {most} {flush_fails}"
        );
        assert_eq!(rt;
            sink.faults,
            u64::from(answer.is_none()),
            "{interruptions} {most} {flush_fails}"
        );
    }
    Ok(())
}

#[test]
fn passes_the_whole_text_on(rt: HostRuntime) -> Result<(), Fail> {
    let mut sink = OutSink::new(Vec::new(rt.alloc()));
    write_all(&mut sink, b"one ")?;
    write_all(&mut sink, b"two")?;
    assert_eq!(rt; sink.writer.as_slice(), b"one two".as_slice());
    Ok(())
}

//! A sink before whose first byte the line goes.

ghost use Rattle.std.specs.Prelude.{◌≡◌};

use crate::Line;
use gk_io::{Failed, Sink};
use std::io::Eprint;
use std::sync::Wait;

/// A sink that ends a line before it passes a piece on to another, and is as that one in all else.
#[derive(Drop)]
pub struct LineSink<'a, K: Sink, R: Wait + Eprint> {
    /// The sink that takes the bytes.
    pub sink: K,
    line: &'a Line<'a>,
    rt: &'a R,
}

impl<'a, K: Sink, R: Wait + Eprint> LineSink<'a, K, R> {
    /// This sink, before whose first byte the line ends.
    pub fn new(sink: K, line: &'a Line<'a>, rt: &'a R) -> LineSink<'a, K, R>
        ensures { result.sink ≡ sink }
    {
        LineSink { sink, line, rt }
    }
}

impl<'a, K: Sink, R: Wait + Eprint> Sink for LineSink<'a, K, R> {
    ghost faults = { λ s. K.faults s.sink };

    ghost taken = { λ s. K.taken s.sink };

    fn write(&mut self, piece: &[u8]) -> Result<usize, Failed> {
        self.line.end(self.rt);
        self.sink.write(piece)
    }
}

// A sink that keeps what it is given, and never fails.
ghost use Rattle.std.specs.Prelude.{◌≡◌, ◌≢◌, ◌<◌, ◌≤◌, ◌^◌, [], length, min, Some};
ghost use Rattle.ldp_io.specs.Sink.{Counts, IfWrote};
ghost use Rattle.ldp_io.specs.NoFaultSink.{PlainSinkState, after_plain_write};

use crate::append::append;
use crate::count::raised;
use crate::sink::{Sink, Wrote};
use std::alloc::Global;
use std::marker::Model;

/// Its count of faults is always 0. A write can want memory.
#[derive(Drop)]
pub struct NoFaultSink {
    written: Vec<u8>,
    piece: usize,
    wants: u64,
}

impl Model for NoFaultSink {
    ghost Value = { PlainSinkState };

    ghost view = { λ s. record { written = s.written.items; piece = s.piece; wants = s.wants } };

    ghost invariant = { λ s. (1 ≤ s.piece) × (s.wants < 2 ^ 64) };
}

impl NoFaultSink {
    /// A sink with no bytes, of which a call takes at most `piece` bytes.
    pub fn new(alloc: Global, piece: usize) -> NoFaultSink
        requires { 1 ≤ piece }
        ensures { result ≡ record { written = []; piece = piece; wants = 0 } }
    {
        NoFaultSink {
            written: Vec::new(alloc),
            piece,
            wants: 0,
        }
    }

    /// All the bytes that were taken.
    pub fn bytes(&self) -> &[u8]
        ensures { result.now ≡ self.now.written }
    {
        &self.written
    }
}

impl Sink for NoFaultSink {
    ghost written = { λ s. Some s.written };

    ghost faults = { λ s. 0 };

    ghost wants = { λ s. s.wants };

    fn write(&mut self, piece: &[u8]) -> Wrote
        requires { 1 ≤ length piece.now }
        ensures answer { result ≢ Wrote.Memory →
            result ≡ Wrote.Took (min self.old.piece (length piece.now)) }
        ensures state { self.new ≡ after_plain_write result piece.now self.old }
        ensures took { IfWrote result (λ n. (1 ≤ n) × (n ≤ length piece.now)) }
        ensures counts { Counts result 0 0 self.old.wants self.new.wants }
    {
        let wrote = append(&mut self.written, self.piece, piece);
        if let Wrote::Memory = wrote {
            self.wants = raised(self.wants);
        }
        wrote
    }
}

// A sink over one of std's streams. Only `main` makes one, from what the runtime gives it.
ghost use Rattle.std.specs.Prelude.{◌≡◌, ◌≢◌, ℕ, ◌<◌, ◌≤◌, ◌^◌, length, None};
ghost use Rattle.ldp_io.specs.Count.{raised as one_more};
ghost use Rattle.ldp_io.specs.Sink.{Counts, IfWrote};

use crate::count::raised;
use crate::sink::{Sink, Wrote};
use std::io::Write;
use std::marker::Model;

/// Contracts see its count of faults. A stream that takes nothing counts as a fault.
#[derive(Drop)]
pub struct StreamSink<W: Write + Drop> {
    stream: W,
    faults: u64,
}

impl<W: Write + Drop> Model for StreamSink<W> {
    ghost Value = { ℕ };

    ghost view = { λ s. s.faults };

    ghost invariant = { λ s. s.faults < 2 ^ 64 };
}

impl<W: Write + Drop> StreamSink<W> {
    /// A sink over a stream, as standard output.
    pub fn new(stream: W) -> StreamSink<W>
        ensures { result ≡ 0 }
    {
        StreamSink { stream, faults: 0 }
    }
}

impl<W: Write + Drop> Sink for StreamSink<W> {
    ghost written = { λ s. None };

    ghost faults = { λ s. s };

    ghost wants = { λ s. 0 };

    fn write(&mut self, piece: &[u8]) -> Wrote
        requires { 1 ≤ length piece.now }
        ensures took { IfWrote result (λ n. (1 ≤ n) × (n ≤ length piece.now)) }
        ensures fault { result ≡ Wrote.Failed → self.new ≡ one_more self.old }
        ensures no_fault { IfWrote result (λ n. self.new ≡ self.old) }
        ensures no_want { result ≢ Wrote.Memory }
        ensures counts { Counts result self.old self.new 0 0 }
    {
        match self.stream.write(piece) {
            Ok(count) if count > 0 => Wrote::Took(count),
            _ => {
                self.faults = raised(self.faults);
                Wrote::Failed
            }
        }
    }
}

// A sink that keeps what it is given, and fails where it is told to.
ghost use Rattle.std.specs.Prelude.{◌≡◌, ◌≢◌, ◌<◌, ◌≤◌, ◌^◌, ◌++◌, [], ◌∷◌, length, Some};
ghost use Rattle.std.specs.Prelude.{OnOk, OnErr};
ghost use Rattle.std.specs.Bool.{OnTrue};
ghost use Rattle.ldp_io.specs.Count.{is_listed as listed_call};
ghost use Rattle.ldp_io.specs.Sink.{Counts, IfWrote};
ghost use Rattle.ldp_io.specs.MemorySink.{SinkState, write_answer, after_write};

use crate::Memory;
use crate::append::append;
use crate::count::{is_listed, raised};
use crate::sink::{Sink, Wrote};
use std::alloc::Global;
use std::marker::Model;

/// Its calls of `write` are numbered from 0, those that fail or want memory too. The number stands
/// still at 2^64 - 1, so all calls from there on are that one.
#[derive(Drop)]
pub struct MemorySink {
    written: Vec<u8>,
    piece: usize,
    listed: Vec<u64>,
    calls: u64,
    faults: u64,
    wants: u64,
}

impl Model for MemorySink {
    ghost Value = { SinkState };

    ghost view = { λ s. record {
      written = s.written.items;
      piece = s.piece;
      listed = s.listed.items;
      calls = s.calls;
      faults = s.faults;
      wants = s.wants;
    } };

    ghost invariant = { λ s. (1 ≤ s.piece) × (s.faults < 2 ^ 64) × (s.wants < 2 ^ 64) };
}

impl MemorySink {
    /// A sink with no bytes, of which a call takes at most `piece` bytes.
    pub fn new(alloc: Global, piece: usize) -> MemorySink
        requires { 1 ≤ piece }
        ensures { result ≡ record {
          written = [];
          piece = piece;
          listed = [];
          calls = 0;
          faults = 0;
          wants = 0;
        } }
    {
        MemorySink {
            written: Vec::new(alloc),
            piece,
            listed: Vec::new(alloc),
            calls: 0,
            faults: 0,
            wants: 0,
        }
    }

    /// Lists one call of `write`, which is to fail.
    pub fn fail_at(&mut self, call: u64) -> Result<(), Memory>
        ensures ok { OnOk result (self.new ≡ record self.old {
          listed = self.old.listed ++ call ∷ [];
        }) }
        ensures err { OnErr result (self.new ≡ self.old) }
    {
        self.listed.push(call)?;
        Ok(())
    }

    /// All the bytes that were taken.
    pub fn bytes(&self) -> &[u8]
        ensures { result.now ≡ self.now.written }
    {
        &self.written
    }
}

impl Sink for MemorySink {
    ghost written = { λ s. Some s.written };

    ghost faults = { λ s. s.faults };

    ghost wants = { λ s. s.wants };

    fn write(&mut self, piece: &[u8]) -> Wrote
        requires { 1 ≤ length piece.now }
        ensures answer { result ≢ Wrote.Memory → result ≡ write_answer self.old (length piece.now) }
        ensures listed { OnTrue (listed_call self.old.listed self.old.calls)
            (result ≡ Wrote.Failed) }
        ensures state { self.new ≡ after_write result piece.now self.old }
        ensures took { IfWrote result (λ n. (1 ≤ n) × (n ≤ length piece.now)) }
        ensures counts { Counts result
            self.old.faults self.new.faults self.old.wants self.new.wants }
    {
        let failed = is_listed(&self.listed, self.calls);
        self.calls = raised(self.calls);
        if failed {
            self.faults = raised(self.faults);
            return Wrote::Failed;
        }
        let wrote = append(&mut self.written, self.piece, piece);
        if let Wrote::Memory = wrote {
            self.wants = raised(self.wants);
        }
        wrote
    }
}

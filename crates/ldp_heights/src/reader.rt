ghost use Rattle.std.specs.Prelude.{◌≡◌, ◌≢◌, ◌+◌, ◌<◌, ◌^◌, ◌++◌, [], ℕ, List, length, option_map};
ghost use Rattle.std.specs.Prelude.{IsTrue, IfSome, IsOk, OnOk, OnErr, IsErr};
ghost use Rattle.ldp_heights.specs.Reading.{heights_of};
ghost use Rattle.ldp_heights.specs.Pieces.{start, go, end, has_started, bytes_taken, Holds};
ghost use Rattle.ldp_heights.specs.Stages.{is_started};

use crate::fault::HeightFault;
use crate::grid::Heights;
use crate::reading::Reading;
use std::alloc::{AllocError as Memory, Global};
use std::marker::Model;

/// A reader of the text of an Esri ASCII grid that is fed in pieces, from one byte on.
#[derive(Drop)]
pub struct HeightReader {
    /// None once memory was wanting.
    reading: Option<Reading>,
}

impl Model for HeightReader {
    ghost use Rattle.ldp_heights.specs.Pieces.{Reader};

    ghost Value = { Reader };

    ghost view = { λ reader. reader.reading };
}

impl HeightReader {
    /// Before the first piece.
    pub fn new(alloc: Global) -> HeightReader
        ensures state { result ≡ Some start }
        ensures holds { Holds result [] }
    {
        HeightReader {
            reading: Some(Reading::start(alloc)),
        }
    }

    /// Takes the next piece of the text. A fault of the text is kept for `finish`. After want of
    /// memory the reader is lost, and each later call that can answer `Memory` does.
    #[tactic(auto, using(crate::proofs::Fed::holds_more))]
    pub fn feed(&mut self, piece: &[u8]) -> Result<(), Memory>
        requires { bytes_taken self.old + length piece.now < 2 ^ 64 }
        ensures state { OnOk result (self.new ≡ option_map (λ s. go s piece.now) self.old) }
        ensures taken { OnOk result
            (bytes_taken self.new ≡ bytes_taken self.old + length piece.now) }
        ensures holds { OnOk result ((text : List ℕ)
            → Holds self.old text → Holds self.new (text ++ piece.now)) }
        ensures lost { self.old ≡ None → IsErr result }
        ensures loses { OnErr result (self.new ≡ None) }
        ensures started { IsTrue (has_started self.old) → IsOk result }
    {
        let Some(reading) = &mut self.reading else {
            return Err(Memory);
        };
        if reading.feed(piece).is_err() {
            self.reading = None;
            return Err(Memory);
        }
        Ok(())
    }

    /// Whether the header has ended or a fault was met: from then on `feed` takes no memory.
    pub fn started(&self) -> bool
        ensures { result ≡ has_started self.now }
    {
        match &self.reading {
            Some(reading) => reading.is_started(),
            None => false,
        }
    }

    /// The grid of the text, or its first fault.
    #[tactic(auto, using(crate::proofs::Fed::holds_read))]
    pub fn finish(self) -> Result<Heights, HeightFault>
        ensures exact { IfSome self (λ s. result ≢ Err HeightFault.Memory → result ≡ end s) }
        ensures started { IfSome self (λ s. IsTrue (is_started s.sofar) → result ≡ end s) }
        ensures read { (text : List ℕ)
            → Holds self text → result ≢ Err HeightFault.Memory → result ≡ heights_of text }
        ensures lost { self ≡ None → result ≡ Err HeightFault.Memory }
    {
        match self.reading {
            Some(reading) => reading.finish(),
            None => Err(HeightFault::Memory),
        }
    }
}

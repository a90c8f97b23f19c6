// Where bytes are written, in order.
ghost use Rattle.std.specs.Prelude.{ℕ, ◌≤◌, List, length, Option};
ghost use Rattle.ldp_io.specs.Sink.{Counts, Grows, IfWrote};

/// The answer of `write`: how many bytes of the piece's front it took.
#[derive(Clone, Copy, Debug, PartialEq, Eq)]
pub enum Wrote {
    Took(usize),
    Failed,
    Memory,
}

/// Where bytes are written, in pieces.
pub trait Sink {
    /// All the bytes that were taken, where the sink tells them.
    ghost written: { Self → Option (List ℕ) };

    /// How often a write has failed.
    ghost faults: { Self → ℕ };

    /// How often a write has wanted memory.
    ghost wants: { Self → ℕ };

    /// Takes bytes from the front of the piece.
    fn write(&mut self, piece: &[u8]) -> Wrote
        requires some { 1 ≤ length piece.now }
        ensures took { IfWrote result (λ n. (1 ≤ n) × (n ≤ length piece.now)) }
        ensures grows { Grows result piece.now (written self.old) (written self.new) }
        ensures counts { Counts result
            (faults self.old) (faults self.new) (wants self.old) (wants self.new) };
}

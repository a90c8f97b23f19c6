ghost use Rattle.std.specs.Prelude.{◌≡◌, ℕ, ◌≤◌, ◌+◌, ◌^◌, List, ◌++◌, length, OnOk};

use ldp_heights::HeightReader;
use std::alloc::AllocError as Memory;

/// What a file is taken into, piece by piece.
pub trait Pieces {
    /// It holds the pieces of this text, in order.
    ghost holds: { Self → List ℕ → Type 0 };

    /// Takes the next piece of a text of at most 2^32 bytes.
    fn feed(&mut self, piece: &[u8]) -> Result<(), Memory>
        requires { (text : List ℕ) × (holds self.old text)
            × (length text + length piece.now ≤ 2 ^ 32) }
        ensures { OnOk result ((text : List ℕ)
            → holds self.old text → holds self.new (text ++ piece.now)) };
}

impl Pieces for Vec<u8> {
    ghost holds = { λ bytes text. bytes.items ≡ text };

    fn feed(&mut self, piece: &[u8]) -> Result<(), Memory> {
        self.extend_from_slice(piece)
    }
}

impl Pieces for HeightReader {
    ghost use Rattle.ldp_heights.specs.Pieces.{Holds};

    ghost holds = { λ reader text. Holds reader text };

    fn feed(&mut self, piece: &[u8]) -> Result<(), Memory> {
        self.feed(piece)
    }
}

ghost use Rattle.std.specs.Prelude.{◌≡◌, ℕ, List, []};
ghost use Rattle.sha2.specs.Sha256.{sha256};
ghost use Rattle.sha2.specs.Hashers.{Holds256};

use crate::pieces::Pieces;
use sha2::{Digest, Sha256};
use std::alloc::AllocError as Memory;

/// Takes pieces into another taker, and into their SHA-256 hash at once.
#[derive(Drop)]
pub struct Hashed<P> {
    of: P,
    hasher: Sha256,
}

/// What pieces were taken into, with their SHA-256 hash.
#[derive(Drop)]
pub struct Digested<P> {
    pub of: P,
    pub hash: [u8; 32],
}

impl<P: Pieces + Drop> Hashed<P> {
    /// Nothing is taken yet.
    pub fn over(of: P) -> Hashed<P>
        requires { P.holds of [] }
        ensures of { P.holds result.of [] }
        ensures hasher { Holds256 result.hasher [] }
    {
        Hashed {
            of,
            hasher: Sha256::new(),
        }
    }

    /// The hash of all that was taken.
    pub fn finish(self) -> Digested<P>
        ensures of { result.of ≡ self.of }
        ensures hash { (text : List ℕ) → Holds256 self.hasher text → result.hash ≡ sha256 text }
    {
        Digested {
            of: self.of,
            hash: self.hasher.finalize(),
        }
    }
}

impl<P: Pieces + Drop> Pieces for Hashed<P> {
    ghost holds = { λ hashed text. (P.holds hashed.of text) × (Holds256 hashed.hasher text) };

    fn feed(&mut self, piece: &[u8]) -> Result<(), Memory> {
        self.of.feed(piece)?;
        self.hasher.update(piece);
        Ok(())
    }
}

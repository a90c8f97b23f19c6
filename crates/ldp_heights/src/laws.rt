//! Laws of the definitions, for proofs: the functions do nothing.

ghost use Rattle.std.specs.Prelude.{◌≡◌, ℕ, ◌+◌, ℤ, Ok, List, ◌++◌, length, Option};
ghost use Rattle.ldp_heights.specs.Header.{Layout};
ghost use Rattle.ldp_heights.specs.Reading.{heights_of, grid_with};
ghost use Rattle.ldp_heights.specs.Whole.{IsGridText};
ghost use Rattle.ldp_heights.specs.Pieces.{State, start, go, end};

use ldp_decimal::laws::numbers_are_spelled;

/// A text of a whole header, its words in any order, and then the heights is read to that grid.
pub fn whole_texts_are_read()
    ensures { (text : List ℕ) (layout : Layout) (heights : List (Option ℤ))
        → IsGridText text layout heights → heights_of text ≡ Ok (grid_with layout heights) }
{
    numbers_are_spelled();
}

/// Two pieces, one after the other, are read as one, and each byte is counted.
#[tactic(auto, using(crate::proofs::Fed::pieces_joined, crate::proofs::Fed::bytes_counted))]
pub fn pieces_are_joined()
    ensures joined { (s : State) (front rest : List ℕ)
        → go (go s front) rest ≡ go s (front ++ rest) }
    ensures counted { (s : State) (text : List ℕ) → (go s text).taken ≡ s.taken + length text }
{}

/// A text that is read in pieces gives the grid of the text, or its first fault.
#[tactic(auto, using(crate::proofs::Fed::text_fed))]
pub fn pieces_are_read()
    ensures { (text : List ℕ) → end (go start text) ≡ heights_of text }
{}

//! Laws of the definitions, for proofs: the functions do nothing.

ghost use Rattle.std.specs.Prelude.{◌≡◌, ℕ, ◌≤◌, ℤ, unsigned_abs, Result, Ok, List, Option, Some};
ghost use Rattle.ldp_decimal.specs.Grammar.{Parts, parts};
ghost use Rattle.ldp_decimal.specs.Spelling.{Spelling, IsSpelling, Spelled};
ghost use Rattle.ldp_decimal.specs.Spelling.{spelling_text, parts_told};
ghost use Rattle.ldp_decimal.specs.Reading.{decimal_of};
ghost use Rattle.ldp_decimal.specs.Writing.{decimal_text, trimmed_text};

/// A text has parts exactly where it is spelled by the number grammar, and they are those of its
/// spelling.
pub fn numbers_are_spelled()
    ensures told { (s : Spelling) → IsSpelling s → parts (spelling_text s) ≡ Some (parts_told s) }
    ensures spelled { (text : List ℕ) (p : Parts) → parts text ≡ Some p → Spelled text p }
{}

/// A written number is read back.
pub fn written_is_read()
    ensures decimal { (places limit : ℕ) (z : ℤ) → places ≤ 15
        → unsigned_abs z ≤ 10000000000000000000 → unsigned_abs z ≤ limit
        → decimal_of places limit (decimal_text places z) ≡ Ok z }
    ensures trimmed { (places limit : ℕ) (z : ℤ) → places ≤ 15
        → unsigned_abs z ≤ 10000000000000000000 → unsigned_abs z ≤ limit
        → decimal_of places limit (trimmed_text places z) ≡ Ok z }
{}

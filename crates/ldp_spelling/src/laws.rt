//! Laws of the definitions, for proofs: the functions do nothing.

ghost use Rattle.std.specs.Prelude.{◌≡◌, ◌≤◌, ◌≤ℤ◌, ℕ, ℤ, pos, neg_ℤ, unsigned_abs, true, List, []};
ghost use Rattle.std.specs.Prelude.{◌∷◌, ◌++◌, map, Some, decimal};
ghost use Rattle.std.specs.List.{list_all};
ghost use Rattle.hex.specs.Hex.{encode_lower, IsBytes};
ghost use Rattle.ldp_num.specs.Number.{limit};
ghost use Rattle.ldp_decimal.specs.Writing.{decimal_text, trimmed_text};
ghost use Rattle.ldp_spelling.specs.Pieces.{lines, words, line_of, text_of, is_plain, is_line};
ghost use Rattle.ldp_spelling.specs.Numbers.{whole_in, trimmed_in, fixed_in, IsWhole};
ghost use Rattle.ldp_spelling.specs.Numbers.{IsWritten};
ghost use Rattle.ldp_spelling.specs.Texts.{Words, line_text, lines_text};
ghost use Rattle.ldp_spelling.specs.Hashes.{hash_in, IsHash};

/// Lines and words that are put together are found again, and a text is its lines, a line its
/// words.
pub fn pieces_are_found()
    ensures words { (w : List ℕ) (ws : List (List ℕ)) → list_all is_plain (w ∷ ws) ≡ true
        → words (line_of (w ∷ ws)) ≡ w ∷ ws }
    ensures line { (line : List ℕ) (ws : List (List ℕ)) → words line ≡ ws → line ≡ line_of ws }
    ensures plain { (ws : List (List ℕ)) → list_all is_plain ws ≡ true
        → is_line (line_of ws) ≡ true }
    ensures lines { (ls : List (List ℕ)) → list_all is_line ls ≡ true
        → lines (text_of ls) ≡ ls ++ [] ∷ [] }
    ensures text { (text : List ℕ) (ls : List (List ℕ)) → lines text ≡ ls ++ [] ∷ []
        → text ≡ text_of ls }
{}

/// Lines of words that are written are a text of lines, and a line more is written behind them.
pub fn lines_are_written()
    ensures text { (lines : List Words) → text_of (map line_of lines) ≡ lines_text lines }
    ensures more { (t0 t1 t2 : List ℕ) (lines all : List Words) (line : Words)
        → t1 ≡ t0 ++ lines_text lines → t2 ≡ t1 ++ line_text line → all ≡ lines ++ line ∷ []
        → t2 ≡ t0 ++ lines_text all }
{}

/// A number that is read is the one that is written, and a written number of the range is read.
pub fn numbers_are_read()
    ensures whole_found { (low high : ℕ) (text : List ℕ) (n : ℕ) → whole_in low high text ≡ Some n
        → IsWhole low high text n }
    ensures whole_again { (low high : ℕ) (text : List ℕ) (n : ℕ) → high ≤ limit
        → IsWhole low high text n → whole_in low high text ≡ Some n }
    ensures trimmed_found { (places : ℕ) (low high : ℤ) (text : List ℕ) (z : ℤ)
        → trimmed_in places low high text ≡ Some z
        → IsWritten (trimmed_text places) low high text z }
    ensures trimmed_again { (places : ℕ) (low high : ℤ) (text : List ℕ) (z : ℤ) → places ≤ 15
        → neg_ℤ (pos limit) ≤ℤ low → high ≤ℤ pos limit
        → IsWritten (trimmed_text places) low high text z
        → trimmed_in places low high text ≡ Some z }
    ensures fixed_found { (places : ℕ) (low high : ℤ) (text : List ℕ) (z : ℤ)
        → fixed_in places low high text ≡ Some z
        → IsWritten (decimal_text places) low high text z }
    ensures fixed_again { (places : ℕ) (low high : ℤ) (text : List ℕ) (z : ℤ) → places ≤ 15
        → neg_ℤ (pos limit) ≤ℤ low → high ≤ℤ pos limit
        → IsWritten (decimal_text places) low high text z
        → fixed_in places low high text ≡ Some z }
    ensures hash_found { (text hash : List ℕ) → hash_in text ≡ Some hash
        → text ≡ encode_lower hash }
    ensures hash_is { (text hash : List ℕ) → hash_in text ≡ Some hash → IsHash hash }
    ensures hash_again { (text hash : List ℕ) → IsHash hash → text ≡ encode_lower hash
        → hash_in text ≡ Some hash }
{}

/// What is written for a number or a hash is a plain word.
pub fn numbers_are_plain()
    ensures whole { (n : ℕ) → n ≤ limit → is_plain (decimal n) ≡ true }
    ensures fixed { (places : ℕ) (z : ℤ) → places ≤ 15 → unsigned_abs z ≤ limit
        → is_plain (decimal_text places z) ≡ true }
    ensures trimmed { (places : ℕ) (z : ℤ) → places ≤ 15 → unsigned_abs z ≤ limit
        → is_plain (trimmed_text places z) ≡ true }
    ensures hash { (bytes : List ℕ) → IsBytes bytes → is_plain (encode_lower bytes) ≡ true }
{}

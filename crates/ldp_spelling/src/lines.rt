use crate::cut::cut;
use std::marker::Model;

/// A reader of the lines of a text, seen as the list of those that are left.
#[derive(Drop)]
pub struct Lines<'a> {
    rest: &'a [u8],
}

impl<'a> Model for Lines<'a> {
    ghost use Rattle.std.specs.Prelude.{List, ℕ};
    ghost use Rattle.ldp_spelling.specs.Pieces.{lines};

    ghost Value = { List (List ℕ) };

    ghost view = { λ reader. lines reader.rest.now };
}

impl<'a> Lines<'a> {
    ghost use Rattle.std.specs.Prelude.{◌≡◌, [], ◌∷◌, ◌↔◌, IsTrue, None, Some, MatchOption};
    ghost use Rattle.ldp_spelling.specs.Pieces.{lines, ended};

    /// All lines of a text.
    pub fn of_text(text: &'a [u8]) -> Self
        ensures { result ≡ lines text.now }
    {
        Lines { rest: text }
    }

    /// Takes the next line, where its line feed is there.
    pub fn next(&mut self) -> Option<&'a [u8]>
        ensures { MatchOption result ((ended self.old ≡ None) × (self.new ≡ self.old))
            (λ line. ended self.old ≡ Some (line.now, self.new)) }
    {
        let (line, rest) = cut(self.rest, b'\n')?;
        self.rest = rest;
        Some(line)
    }

    /// Whether nothing stands behind the lines that were taken.
    pub fn is_empty(&self) -> bool
        ensures { IsTrue result ↔ (self.now ≡ [] ∷ []) }
    {
        self.rest.is_empty()
    }
}

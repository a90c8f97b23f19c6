use crate::cut::cut;
use std::marker::Model;

/// A reader of the words of a line, seen as the list of those that are left.
#[derive(Drop)]
pub struct Words<'a> {
    rest: &'a [u8],
    // an empty rest may still be one empty word
    more: bool,
}

impl<'a> Model for Words<'a> {
    ghost use Rattle.std.specs.Prelude.{List, ℕ};
    ghost use Rattle.ldp_spelling.specs.Pieces.{words_left};

    ghost Value = { List (List ℕ) };

    ghost view = { λ reader. words_left reader.more reader.rest.now };
}

impl<'a> Words<'a> {
    ghost use Rattle.std.specs.Prelude.{◌≡◌, [], ◌∷◌, ◌↔◌, IsTrue, MatchOption};
    ghost use Rattle.ldp_spelling.specs.Pieces.{words};

    /// All words of a line.
    pub fn of_line(line: &'a [u8]) -> Self
        ensures { result ≡ words line.now }
    {
        Words {
            rest: line,
            more: true,
        }
    }

    /// Takes the next word.
    pub fn next(&mut self) -> Option<&'a [u8]>
        ensures { MatchOption result ((self.old ≡ []) × (self.new ≡ []))
            (λ word. self.old ≡ word.now ∷ self.new) }
    {
        if !self.more {
            return None;
        }
        match cut(self.rest, b' ') {
            Some((word, rest)) => {
                self.rest = rest;
                Some(word)
            }
            None => {
                self.more = false;
                Some(self.rest)
            }
        }
    }

    /// Whether all words are taken.
    pub fn is_empty(&self) -> bool
        ensures { IsTrue result ↔ (self.now ≡ []) }
    {
        !self.more
    }
}

ghost use Rattle.std.specs.Prelude.{◌≡◌, ◌≤◌, ◌+◌, [], ◌++◌, length, decimal};

use itoa::Buffer;
use std::marker::Model;

/// The most bytes of a line.
const ROOM: usize = 64;

/// A short text that is put together without taking memory.
#[derive(Drop)]
pub struct Line {
    bytes: [u8; 64],
    count: usize,
}

impl Model for Line {
    ghost use Rattle.std.specs.Prelude.{List, ℕ, ◌≤◌, take};

    ghost Value = { List ℕ };

    ghost view = { λ line. take line.count line.bytes };

    ghost invariant = { λ line. line.count ≤ 64 };
}

impl Line {
    /// An empty line.
    pub fn new() -> Line
        ensures { result ≡ [] }
    {
        Line {
            bytes: [0; ROOM],
            count: 0,
        }
    }

    /// Appends a piece.
    pub fn push(&mut self, piece: &[u8])
        requires { length self.old + length piece.now ≤ 64 }
        ensures { self.new ≡ self.old ++ piece.now }
    {
        let end = self.count + piece.len();
        self.bytes[self.count..end].copy_from_slice(piece);
        self.count = end;
    }

    /// Appends a number in decimal digits.
    pub fn push_number(&mut self, number: u64)
        requires { length self.old + 20 ≤ 64 }
        ensures text { self.new ≡ self.old ++ decimal number }
        ensures short { length self.new ≤ length self.old + 20 }
    {
        self.push(Buffer::new().format(number).as_bytes());
    }

    /// Appends one piece and then another.
    pub fn push_two(&mut self, first: &[u8], second: &[u8])
        requires { length self.old + length first.now + length second.now ≤ 64 }
        ensures text { self.new ≡ self.old ++ (first.now ++ second.now) }
        ensures short { length self.new ≡ length self.old + length first.now + length second.now }
    {
        self.push(first);
        self.push(second);
    }

    /// Appends a name and then its number.
    pub fn push_count(&mut self, name: &[u8], count: u64)
        requires { length self.old + length name.now ≤ 40 }
        ensures text { self.new ≡ self.old ++ (name.now ++ decimal count) }
        ensures short { length self.new ≤ length self.old + length name.now + 20 }
    {
        self.push(name);
        self.push_number(count);
    }

    /// What the line holds.
    pub fn bytes(&self) -> &[u8]
        ensures { result.now ≡ self.now }
    {
        &self.bytes[..self.count]
    }
}

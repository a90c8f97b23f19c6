// Files that are read by name, one at a time, each for a place among the files of a command.
ghost use Rattle.std.specs.Prelude.{◌≡◌, ℕ, ◌<◌, ◌≤◌, ◌^◌, Bool, IsTrue, List, length, Option};
ghost use Rattle.ldp_io.specs.Count.{Later, Rose};
ghost use Rattle.ldp_io.specs.Shelf.{Files, Begins, IfTook, Takes};

/// The answer of `begin`.
#[derive(Clone, Copy, Debug, PartialEq, Eq)]
pub enum Opened {
    Ready,
    Failed,
    Memory,
}

/// The answer of `next`: how many bytes it put at the front of the buffer.
#[derive(Clone, Copy, Debug, PartialEq, Eq)]
pub enum Next {
    Took(usize),
    End,
    Failed,
}

/// Files that are read by name, one at a time, in pieces. Its meanings are told where they are
/// known: a shelf over real files tells nothing of what they hold.
pub trait Shelf {
    /// The bytes under each name, where the shelf tells them.
    ghost files: { Self → Option Files };

    /// What is left of the file begun last, where the shelf tells its files.
    ghost rest: { Self → Option (List ℕ) };

    /// The place begun last, 0 at first.
    ghost begun: { Self → ℕ };

    /// May this name be begun at this place?
    ghost serves: { Self → ℕ → List ℕ → Bool };

    /// How often a call for a place has failed, for the places 0 to 3.
    ghost faults: { Self → ℕ → ℕ };

    /// Opens the file of that name, for one of the places 0 to 3 among a command's files.
    fn begin(&mut self, place: u8, name: &str) -> Opened
        requires below { place < 4 }
        requires served { IsTrue (serves self.old place name.now) }
        ensures begins { Begins result name.now (files self.old) (rest self.new) }
        ensures place { begun self.new ≡ place }
        ensures files { files self.new ≡ files self.old }
        ensures serves { serves self.new ≡ serves self.old }
        ensures later { Later (faults self.old) (faults self.new) }
        ensures in_range { (each : ℕ) → faults self.new each < 2 ^ 64 }
        ensures failed { result ≡ Opened.Failed →
            Rose (faults self.old place) (faults self.new place) };

    /// Takes the next bytes of the file begun last.
    fn next(&mut self, buf: &mut [u8]) -> Next
        requires room { 1 ≤ length buf.old }
        ensures took { IfTook result (λ n. (1 ≤ n) × (n ≤ length buf.old)) }
        ensures takes { Takes result buf.new (rest self.old) (rest self.new) }
        ensures begun { begun self.new ≡ begun self.old }
        ensures files { files self.new ≡ files self.old }
        ensures serves { serves self.new ≡ serves self.old }
        ensures later { Later (faults self.old) (faults self.new) }
        ensures in_range { (each : ℕ) → faults self.new each < 2 ^ 64 }
        ensures failed { result ≡ Next.Failed →
            Rose (faults self.old (begun self.old)) (faults self.new (begun self.old)) };
}

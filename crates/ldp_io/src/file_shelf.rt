// A shelf over the files of the system. Only `main` makes one, from what the runtime gives it.
ghost use Rattle.std.specs.Prelude.{◌≡◌, ◌≢◌, ◌<◌, ◌≤◌, [], ◌∷◌, length, None, true, slice_index};
ghost use Rattle.ldp_io.specs.Count.{AreCounts, Later, Rose};
ghost use Rattle.ldp_io.specs.Shelf.{Begins, IfTook, Takes};
ghost use Rattle.ldp_io.specs.FileShelf.{ShelfCounts, counts_after_begin, counts_after_next};

use crate::count::raise_at;
use crate::shelf::{Next, Opened, Shelf};
use std::fs;
use std::io::Read;
use std::marker::Model;
use std::rt::Files;

/// A file that cannot be opened or read counts as a fault at its place.
#[derive(Drop)]
pub struct FileShelf<'a, R: Files> {
    files: &'a R,
    opened: Option<R::File>,
    begun: u8,
    faults: [u64; 4],
}

impl<'a, R: Files> Model for FileShelf<'a, R> {
    ghost Value = { ShelfCounts };

    ghost view = { λ s. record { begun = s.begun; faults = s.faults } };

    ghost invariant = { λ s. (s.begun < 4) × AreCounts s.faults };
}

impl<'a, R: Files> FileShelf<'a, R> {
    /// A shelf over the files that the runtime gives, with no file begun.
    pub fn new(files: &'a R) -> FileShelf<'a, R>
        ensures { result ≡ record { begun = 0; faults = 0 ∷ 0 ∷ 0 ∷ 0 ∷ [] } }
    {
        FileShelf {
            files,
            opened: None,
            begun: 0,
            faults: [0; 4],
        }
    }
}

impl<'a, R: Files> Shelf for FileShelf<'a, R> {
    ghost files = { λ s. None };

    ghost rest = { λ s. None };

    ghost begun = { λ s. s.begun };

    ghost serves = { λ s place name. true };

    ghost faults = { λ s place. slice_index s.faults place };

    fn begin(&mut self, place: u8, name: &str) -> Opened
        requires { place < 4 }
        ensures counts { self.new ≡ counts_after_begin result place self.old }
        ensures no_want { result ≢ Opened.Memory }
        ensures begins { Begins result name.now None None }
        ensures place { self.new.begun ≡ place }
        ensures later { Later (slice_index self.old.faults) (slice_index self.new.faults) }
        ensures in_range { AreCounts self.new.faults }
        ensures failed { result ≡ Opened.Failed →
            Rose (slice_index self.old.faults place) (slice_index self.new.faults place) }
    {
        self.begun = place;
        self.opened = fs::open(self.files, name).ok();
        if self.opened.is_none() {
            raise_at(&mut self.faults, place);
            return Opened::Failed;
        }
        Opened::Ready
    }

    fn next(&mut self, buf: &mut [u8]) -> Next
        requires { 1 ≤ length buf.old }
        ensures took { IfTook result (λ n. (1 ≤ n) × (n ≤ length buf.old)) }
        ensures counts { self.new ≡ counts_after_next result self.old }
        ensures takes { Takes result buf.new None None }
        ensures begun { self.new.begun ≡ self.old.begun }
        ensures later { Later (slice_index self.old.faults) (slice_index self.new.faults) }
        ensures in_range { AreCounts self.new.faults }
        ensures failed { result ≡ Next.Failed → Rose
            (slice_index self.old.faults self.old.begun)
            (slice_index self.new.faults self.old.begun) }
    {
        let Some(file) = &mut self.opened else {
            return Next::End;
        };
        match file.read(buf) {
            Ok(0) => Next::End,
            Ok(count) => Next::Took(count),
            Err(_) => {
                raise_at(&mut self.faults, self.begun);
                Next::Failed
            }
        }
    }
}

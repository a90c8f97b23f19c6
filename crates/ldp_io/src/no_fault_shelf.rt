// A shelf of files in memory, which never fails.
ghost use Rattle.std.specs.Prelude.{◌≡◌, ◌<◌, ◌≤◌, [], ◌∷◌, length, true, Some, OnOk, OnErr};
ghost use Rattle.ldp_io.specs.Folder.{file_bytes, plain_answer, folder_after, filled};
ghost use Rattle.ldp_io.specs.Shelf.{IfTook};
ghost use Rattle.ldp_io.specs.NoFaultShelf.{PlainShelfState, after_plain_begin};

use crate::Memory;
use crate::folder::Folder;
use crate::shelf::{Next, Opened, Shelf};
use std::alloc::Global;
use std::marker::Model;

/// A name that it does not hold is an empty file. Its counts of faults are always 0.
#[derive(Drop)]
pub struct NoFaultShelf {
    folder: Folder,
    begun: u8,
}

impl Model for NoFaultShelf {
    ghost Value = { PlainShelfState };

    ghost view = { λ s. record { folder = s.folder; begun = s.begun } };
}

impl NoFaultShelf {
    /// A shelf with no file, of which a call takes at most `piece` bytes.
    pub fn new(alloc: Global, piece: usize) -> NoFaultShelf
        requires { 1 ≤ piece }
        ensures { result ≡ record {
          folder = record { files = []; piece = piece; rest = [] };
          begun = 0;
        } }
    {
        NoFaultShelf {
            folder: Folder::new(alloc, piece),
            begun: 0,
        }
    }

    /// Puts a file, in place of one of that name. What is left of the file begun last stays, also
    /// where it had that name.
    pub fn put(&mut self, name: &str, bytes: &[u8]) -> Result<(), Memory>
        ensures ok { OnOk result (self.new ≡ record self.old {
          folder = record self.old.folder {
            files = record { name = name.now; bytes = bytes.now } ∷ self.old.folder.files;
          };
        }) }
        ensures err { OnErr result (self.new ≡ self.old) }
    {
        self.folder.put(name, bytes)
    }
}

impl Shelf for NoFaultShelf {
    ghost files = { λ s. Some (λ name. file_bytes s.folder.files name) };

    ghost rest = { λ s. Some s.folder.rest };

    ghost begun = { λ s. s.begun };

    ghost serves = { λ s place name. true };

    ghost faults = { λ s place. 0 };

    fn begin(&mut self, place: u8, name: &str) -> Opened
        requires { place < 4 }
        ensures answer { result ≡ Opened.Ready }
        ensures state { self.new ≡ after_plain_begin place name.now self.old }
    {
        self.folder.open(name);
        self.begun = place;
        Opened::Ready
    }

    fn next(&mut self, buf: &mut [u8]) -> Next
        requires { 1 ≤ length buf.old }
        ensures answer { result ≡ plain_answer self.old.folder (length buf.old) }
        ensures state { self.new ≡ record self.old {
          folder = folder_after result self.old.folder;
        } }
        ensures buffer { buf.new ≡ filled result self.old.folder.rest buf.old }
        ensures took { IfTook result (λ n. (1 ≤ n) × (n ≤ length buf.old)) }
    {
        match self.folder.take(buf) {
            0 => Next::End,
            count => Next::Took(count),
        }
    }
}

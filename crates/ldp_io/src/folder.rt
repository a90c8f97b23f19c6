// Files in memory, of which one is read: what the shelves in memory have in common.
ghost use Rattle.std.specs.Prelude.{◌≡◌, ◌⊎◌, ◌+◌, ◌<◌, ◌≤◌, ◌^◌, [], ◌∷◌, ◌++◌, length, take};
ghost use Rattle.std.specs.Prelude.{drop, min, position, None, IfSome, OnOk, OnErr};
ghost use Rattle.ldp_io.specs.Folder.{Folder as Held, is_named, is_held, file_bytes, rest_of};

use crate::Memory;
use crate::memory_file::MemoryFile;
use std::alloc::Global;
use std::marker::Model;

#[derive(Drop)]
pub(crate) struct Folder {
    alloc: Global,
    files: Vec<MemoryFile>,
    piece: usize,
    opened: Option<usize>,
    taken: usize,
}

impl Model for Folder {
    ghost Value = { Held };

    ghost view = { λ s. record {
      files = s.files.items;
      piece = s.piece;
      rest = rest_of s.files.items s.opened s.taken;
    } };

    ghost invariant = { λ s. (1 ≤ s.piece)
        × IfSome s.opened (λ place. place < length s.files.items) };
}

impl Folder {
    pub(crate) fn new(alloc: Global, piece: usize) -> Folder
        requires { 1 ≤ piece }
        ensures { result ≡ record { files = []; piece = piece; rest = [] } }
    {
        Folder {
            alloc,
            files: Vec::new(alloc),
            piece,
            opened: None,
            taken: 0,
        }
    }

    /// What is left of the file opened last stays.
    pub(crate) fn put(&mut self, name: &str, bytes: &[u8]) -> Result<(), Memory>
        ensures ok { OnOk result (self.new ≡ record self.old {
          files = record { name = name.now; bytes = bytes.now } ∷ self.old.files;
        }) }
        ensures err { OnErr result (self.new ≡ self.old) }
    {
        let file = MemoryFile::new(self.alloc, name, bytes)?;
        self.files.insert(0, file)?;
        if let Some(place) = self.opened {
            self.opened = Some(place + 1);
        }
        Ok(())
    }

    /// Tells whether there is a file of that name.
    #[tactic(auto, using(crate::proofs::Positions::place_held, crate::proofs::Positions::place_bytes))]
    pub(crate) fn open(&mut self, name: &str) -> bool
        ensures held { result ≡ is_held self.old.files name.now }
        ensures opened { self.new ≡ record self.old { rest = file_bytes self.old.files name.now } }
    {
        self.opened = place_of(&self.files, name);
        self.taken = 0;
        self.opened.is_some()
    }

    pub(crate) fn close(&mut self)
        ensures { self.new ≡ record self.old { rest = [] } }
    {
        self.opened = None;
    }

    /// Takes the next bytes of the open file.
    pub(crate) fn take(&mut self, buf: &mut [u8]) -> usize
        requires { 1 ≤ length buf.old }
        ensures count { result ≡ min self.old.piece (min (length buf.old) (length self.old.rest)) }
        ensures buffer { buf.new ≡ take result self.old.rest ++ drop result buf.old }
        ensures rest { self.new ≡ record self.old { rest = drop result self.old.rest } }
        ensures piece { 1 ≤ self.old.piece }
    {
        let rest = rest_in(&self.files, self.opened, self.taken);
        let count = self.piece.min(buf.len()).min(rest.len());
        buf[..count].copy_from_slice(&rest[..count]);
        self.taken += count;
        count
    }
}

fn place_of(files: &[MemoryFile], name: &str) -> Option<usize>
    ensures { result ≡ position (is_named name.now) files.now }
{
    files.iter().position(|file| file.is_named(name))
}

fn rest_in(files: &[MemoryFile], opened: Option<usize>, taken: usize) -> &[u8]
    ensures rest { result.now ≡ rest_of files.now opened taken }
    ensures within { (length result.now ≡ 0) ⊎ (taken + length result.now < 2 ^ 64) }
{
    let Some(place) = opened else {
        return &[];
    };
    let Some(file) = files.get(place) else {
        return &[];
    };
    let bytes = file.bytes();
    if taken < bytes.len() {
        &bytes[taken..]
    } else {
        &[]
    }
}

// A shelf of files in memory, which fails where it is told to.
ghost use Rattle.std.specs.Prelude.{◌≡◌, ◌<◌, ◌≤◌, ◌^◌, ◌++◌, [], ◌∷◌, length, slice_index};
ghost use Rattle.std.specs.Prelude.{true, Some, OnOk, OnErr};
ghost use Rattle.ldp_io.specs.Count.{AreCounts, Later, Rose};
ghost use Rattle.ldp_io.specs.Folder.{file_bytes, filled};
ghost use Rattle.ldp_io.specs.Shelf.{IfTook};
ghost use Rattle.ldp_io.specs.MemoryShelf.{ShelfState, begin_answer, after_begin};
ghost use Rattle.ldp_io.specs.MemoryShelf.{next_answer, after_next};

use crate::Memory;
use crate::count::{is_listed, raise_at, raised};
use crate::folder::Folder;
use crate::shelf::{Next, Opened, Shelf};
use std::alloc::Global;
use std::marker::Model;

/// Its calls of `begin` and `next` are numbered together from 0, those that fail too. The number
/// stands still at 2^64 - 1, so all calls from there on are that one.
#[derive(Drop)]
pub struct MemoryShelf {
    folder: Folder,
    listed: Vec<u64>,
    calls: u64,
    begun: u8,
    faults: [u64; 4],
}

impl Model for MemoryShelf {
    ghost Value = { ShelfState };

    ghost view = { λ s. record {
      folder = s.folder;
      listed = s.listed.items;
      calls = s.calls;
      begun = s.begun;
      faults = s.faults;
    } };

    ghost invariant = { λ s. (s.begun < 4) × AreCounts s.faults };
}

impl MemoryShelf {
    /// A shelf with no file, of which a call takes at most `piece` bytes.
    pub fn new(alloc: Global, piece: usize) -> MemoryShelf
        requires { 1 ≤ piece }
        ensures { result ≡ record {
          folder = record { files = []; piece = piece; rest = [] };
          listed = [];
          calls = 0;
          begun = 0;
          faults = 0 ∷ 0 ∷ 0 ∷ 0 ∷ [];
        } }
    {
        MemoryShelf {
            folder: Folder::new(alloc, piece),
            listed: Vec::new(alloc),
            calls: 0,
            begun: 0,
            faults: [0; 4],
        }
    }

    /// Puts a file, in place of one of that name. What is left of the file begun last stays, also
    /// where it had that name.
    pub fn put(&mut self, name: &str, bytes: &[u8]) -> Result<(), Memory>
        ensures ok { OnOk result (self.new ≡ record self.old {
          folder = record self.old.folder {
            files = record { name = name.now; bytes = bytes.now } ∷ self.old.folder.files;
          };
        }) }
        ensures err { OnErr result (self.new ≡ self.old) }
    {
        self.folder.put(name, bytes)
    }

    /// Lists one call of `begin` or `next`, which is to fail.
    pub fn fail_at(&mut self, call: u64) -> Result<(), Memory>
        ensures ok { OnOk result (self.new ≡ record self.old {
          listed = self.old.listed ++ call ∷ [];
        }) }
        ensures err { OnErr result (self.new ≡ self.old) }
    {
        self.listed.push(call)?;
        Ok(())
    }
}

impl Shelf for MemoryShelf {
    ghost files = { λ s. Some (λ name. file_bytes s.folder.files name) };

    ghost rest = { λ s. Some s.folder.rest };

    ghost begun = { λ s. s.begun };

    ghost serves = { λ s place name. true };

    ghost faults = { λ s place. slice_index s.faults place };

    fn begin(&mut self, place: u8, name: &str) -> Opened
        requires { place < 4 }
        ensures answer { result ≡ begin_answer self.old name.now }
        ensures state { self.new ≡ after_begin result place name.now self.old }
        ensures later { Later (slice_index self.old.faults) (slice_index self.new.faults) }
        ensures in_range { AreCounts self.new.faults }
        ensures failed { result ≡ Opened.Failed →
            Rose (slice_index self.old.faults place) (slice_index self.new.faults place) }
    {
        let failed = is_listed(&self.listed, self.calls);
        self.calls = raised(self.calls);
        self.begun = place;
        let held = self.folder.open(name);
        if failed || !held {
            self.folder.close();
            raise_at(&mut self.faults, place);
            return Opened::Failed;
        }
        Opened::Ready
    }

    fn next(&mut self, buf: &mut [u8]) -> Next
        requires { 1 ≤ length buf.old }
        ensures answer { result ≡ next_answer self.old (length buf.old) }
        ensures state { self.new ≡ after_next result self.old }
        ensures buffer { buf.new ≡ filled result self.old.folder.rest buf.old }
        ensures took { IfTook result (λ n. (1 ≤ n) × (n ≤ length buf.old)) }
        ensures later { Later (slice_index self.old.faults) (slice_index self.new.faults) }
        ensures in_range { AreCounts self.new.faults }
        ensures failed { result ≡ Next.Failed → Rose
            (slice_index self.old.faults self.old.begun)
            (slice_index self.new.faults self.old.begun) }
    {
        let failed = is_listed(&self.listed, self.calls);
        self.calls = raised(self.calls);
        if failed {
            raise_at(&mut self.faults, self.begun);
            return Next::Failed;
        }
        match self.folder.take(buf) {
            0 => Next::End,
            count => Next::Took(count),
        }
    }
}

ghost use Rattle.std.specs.Prelude.{◌≡◌, ◌+◌, ◌<◌, ◌≤◌, ◌^◌, [], length, IsTrue, IfErr, IfSome};
ghost use Rattle.std.specs.Prelude.{OnOk};
ghost use Rattle.ldp_io.specs.Count.{Later, Rose};

use crate::pieces::Pieces;
use ldp_io::{Next, Opened, Shelf};
use std::alloc::AllocError;

/// Why a file is not taken whole.
#[derive(Clone, Copy, Debug, PartialEq, Eq)]
pub enum FileFault {
    /// The file has more bytes than the limit.
    TooLong,
    /// A call of the shelf failed.
    Failed,
    Memory,
}

impl From<AllocError> for FileFault {
    ghost use Rattle.std.specs.Prelude.{◌≡◌};
    ghost use Rattle.ldp_cli.specs.declared.take_file.FileFault.TheVariants.{Memory as OutOfMemory};

    ghost from_gives = { λ _ fault. fault ≡ OutOfMemory };

    fn from(_: AllocError) -> FileFault {
        FileFault::Memory
    }
}

/// The most bytes that one call takes.
const MOST_TAKEN: usize = 65_536;

/// Takes the bytes of a file, at most `limit` of them. Of a longer file one byte more is taken, and
/// nothing after it.
pub fn take_file<H: Shelf, P: Pieces>(
    shelf: &mut H,
    place: u8,
    name: &str,
    limit: usize,
    into: &mut P,
) -> Result<(), FileFault>
    requires place { place < 4 }
    requires served { IsTrue (H.serves shelf.old place name.now) }
    requires limit { limit < 2 ^ 32 }
    requires empty { P.holds into.old [] }
    ensures taken { OnOk result (IfSome (H.files shelf.old)
        (λ files. P.holds into.new (files name.now))) }
    ensures short { OnOk result (IfSome (H.files shelf.old)
        (λ files. length (files name.now) ≤ limit)) }
    ensures too_long { IfErr result (λ fault. fault ≡ FileFault.TooLong →
        IfSome (H.files shelf.old) (λ files. limit < length (files name.now))) }
    ensures one_byte_more { IfErr result (λ fault. fault ≡ FileFault.TooLong →
        IfSome (H.files shelf.old) (λ files. IfSome (H.rest shelf.new)
        (λ rest. length (files name.now) ≡ limit + 1 + length rest))) }
    ensures failed { IfErr result (λ fault. fault ≡ FileFault.Failed →
        Rose (H.faults shelf.old place) (H.faults shelf.new place)) }
    ensures files { H.files shelf.new ≡ H.files shelf.old }
    ensures serves { H.serves shelf.new ≡ H.serves shelf.old }
    ensures later { Later (H.faults shelf.old) (H.faults shelf.new) }
{
    match shelf.begin(place, name) {
        Opened::Ready => {}
        Opened::Failed => return Err(FileFault::Failed),
        Opened::Memory => return Err(FileFault::Memory),
    }
    let mut taken = 0;
    let mut buffer = [0u8; MOST_TAKEN];
    while taken <= limit {
        let room = MOST_TAKEN.min(limit + 1 - taken);
        let piece = &mut buffer[..room];
        match shelf.next(piece) {
            Next::Took(count) => {
                into.feed(&piece[..count])?;
                taken += count;
            }
            Next::End => return Ok(()),
            Next::Failed => return Err(FileFault::Failed),
        }
    }
    Err(FileFault::TooLong)
}

ghost use Rattle.std.specs.Prelude.{◌≡◌, ◌<◌, [], IsTrue, Ok, Err, OnOk, IfOk, IfErr, IfSome};
ghost use Rattle.sha2.specs.Sha256.{sha256};
ghost use Rattle.ldp_io.specs.Count.{Later};
ghost use Rattle.ldp_cli.specs.Readings.{short_text};
ghost use Rattle.ldp_cli.specs.Files.{Gives, StopsAt};

use crate::hashed::{Digested, Hashed};
use crate::pieces::Pieces;
use crate::stop::Stop;
use crate::take_file::{FileFault, take_file};
use ldp_io::Shelf;
use ldp_message::{FileRole, Refusal};
use std::alloc::Global;

/// The most bytes of a file.
const MOST_BYTES: usize = 128_000_000;

/// Takes a file that is short enough, piece by piece, into what has taken nothing yet.
pub fn take_into<H: Shelf, P: Pieces>(
    shelf: &mut H,
    place: u8,
    role: FileRole,
    name: &str,
    into: &mut P,
) -> Result<(), Stop>
    requires place { place < 4 }
    requires served { IsTrue (H.serves shelf.old place name.now) }
    requires empty { P.holds into.old [] }
    ensures taken { OnOk result (IfSome (H.files shelf.old)
        (λ files. P.holds into.new (files name.now))) }
    ensures short { OnOk result (IfSome (H.files shelf.old)
        (λ files. short_text role (files name.now) ≡ Ok (files name.now))) }
    ensures told { IfErr result (λ stop. IfSome (H.files shelf.old)
        (λ files. Gives (Err stop) (short_text role (files name.now)))) }
    ensures stops { IfErr result (λ stop.
        StopsAt place role stop (H.faults shelf.old) (H.faults shelf.new)) }
    ensures files { H.files shelf.new ≡ H.files shelf.old }
    ensures serves { H.serves shelf.new ≡ H.serves shelf.old }
    ensures later { Later (H.faults shelf.old) (H.faults shelf.new) }
{
    match take_file(shelf, place, name, MOST_BYTES, into) {
        Ok(()) => Ok(()),
        Err(FileFault::TooLong) => Err(Stop::Refused(Refusal::TooLong(role))),
        Err(FileFault::Failed) => Err(Stop::Unread { place, role }),
        Err(FileFault::Memory) => Err(Stop::Memory),
    }
}

/// The bytes of a file that is short enough.
pub fn take_bytes<H: Shelf>(
    alloc: Global,
    shelf: &mut H,
    place: u8,
    role: FileRole,
    name: &str,
) -> Result<Vec<u8>, Stop>
    requires place { place < 4 }
    requires served { IsTrue (H.serves shelf.old place name.now) }
    ensures bytes { IfOk result (λ text. IfSome (H.files shelf.old)
        (λ files. short_text role (files name.now) ≡ Ok text.items)) }
    ensures told { IfErr result (λ stop. IfSome (H.files shelf.old)
        (λ files. Gives (Err stop) (short_text role (files name.now)))) }
    ensures stops { IfErr result (λ stop.
        StopsAt place role stop (H.faults shelf.old) (H.faults shelf.new)) }
    ensures files { H.files shelf.new ≡ H.files shelf.old }
    ensures serves { H.serves shelf.new ≡ H.serves shelf.old }
    ensures later { Later (H.faults shelf.old) (H.faults shelf.new) }
{
    let mut text = Vec::new(alloc);
    take_into(shelf, place, role, name, &mut text)?;
    Ok(text)
}

/// The bytes of a file that is short enough, with their hash.
pub fn take_hashed<H: Shelf>(
    alloc: Global,
    shelf: &mut H,
    place: u8,
    role: FileRole,
    name: &str,
) -> Result<Digested<Vec<u8>>, Stop>
    requires place { place < 4 }
    requires served { IsTrue (H.serves shelf.old place name.now) }
    ensures bytes { IfOk result (λ file. IfSome (H.files shelf.old)
        (λ files. short_text role (files name.now) ≡ Ok file.of.items)) }
    ensures hash { IfOk result (λ file. IfSome (H.files shelf.old)
        (λ files. file.hash ≡ sha256 file.of.items)) }
    ensures told { IfErr result (λ stop. IfSome (H.files shelf.old)
        (λ files. Gives (Err stop) (short_text role (files name.now)))) }
    ensures stops { IfErr result (λ stop.
        StopsAt place role stop (H.faults shelf.old) (H.faults shelf.new)) }
    ensures files { H.files shelf.new ≡ H.files shelf.old }
    ensures serves { H.serves shelf.new ≡ H.serves shelf.old }
    ensures later { Later (H.faults shelf.old) (H.faults shelf.new) }
{
    let mut text = Hashed::over(Vec::new(alloc));
    take_into(shelf, place, role, name, &mut text)?;
    Ok(text.finish())
}

// The one step of a write into memory.
ghost use Rattle.std.specs.Prelude.{◌≡◌, ◌≢◌, length, min, Some};
ghost use Rattle.ldp_io.specs.Sink.{Grows};

use crate::sink::Wrote;

/// Takes at most so many bytes from the front of the piece.
pub(crate) fn append(written: &mut Vec<u8>, most: usize, piece: &[u8]) -> Wrote
    ensures amount { result ≢ Wrote.Memory → result ≡ Wrote.Took (min most (length piece.now)) }
    ensures bytes { Grows result piece.now (Some written.old.items) (Some written.new.items) }
{
    let count = most.min(piece.len());
    match written.extend_from_slice(&piece[..count]) {
        Ok(()) => Wrote::Took(count),
        Err(_) => Wrote::Memory,
    }
}

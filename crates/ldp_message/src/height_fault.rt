ghost use Rattle.std.specs.Prelude.{◌≡◌, ◌≤◌, ◌+◌, ◌++◌, length};
ghost use Rattle.ldp_message.specs.HeightFault.{word_name, height_fault_text};

use crate::line::Line;
use ldp_heights::{HeightFault, Word};

/// Appends the text of a fault of heights.
pub fn push_height_fault(line: &mut Line, fault: HeightFault)
    requires { length line.old ≤ 16 }
    ensures text { line.new ≡ line.old ++ height_fault_text fault }
    ensures short { length line.new ≤ length line.old + 33 }
{
    match fault {
        HeightFault::MissingWord(word) => line.push_two(b"MissingWord ", word_name(word)),
        HeightFault::UnknownWord(place) => line.push_count(b"UnknownWord ", place as u64),
        HeightFault::RepeatedWord(place) => line.push_count(b"RepeatedWord ", place as u64),
        HeightFault::BadNumber(place) => line.push_count(b"BadNumber ", place as u64),
        HeightFault::OutOfRange(place) => line.push_count(b"OutOfRange ", place as u64),
        HeightFault::TooMany => line.push(b"TooMany"),
        HeightFault::TooFew(found) => line.push_count(b"TooFew ", u64::from(found)),
        HeightFault::Trailing(place) => line.push_count(b"Trailing ", place as u64),
        HeightFault::Memory => line.push(b"Memory"),
    }
}

fn word_name(word: Word) -> &'static [u8]
    ensures name { result.now ≡ word_name word }
    ensures short { length result.now ≤ 8 }
{
    match word {
        Word::Ncols => b"Ncols",
        Word::Nrows => b"Nrows",
        Word::X => b"X",
        Word::Y => b"Y",
        Word::Cellsize => b"Cellsize",
        Word::Nodata => b"Nodata",
    }
}

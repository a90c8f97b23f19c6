ghost use Rattle.std.specs.Prelude.{◌≡◌, ◌≤◌, ◌+◌, ◌++◌, length};
ghost use Rattle.ldp_message.specs.GridFault.{part_suffix, place_text, grid_fault_text};

use crate::line::Line;
use ldp_design::{Key, key_text};
use ldp_grids::{GridFault, Part};

/// Appends the text of a fault of design grids.
pub fn push_grid_fault(line: &mut Line, fault: GridFault)
    requires { length line.old ≤ 14 }
    ensures text { line.new ≡ line.old ++ grid_fault_text fault }
    ensures short { length line.new ≤ length line.old + 46 }
{
    match fault {
        GridFault::NotToml => line.push(b"NotToml"),
        GridFault::NoFamily => line.push(b"NoFamily"),
        GridFault::TooManyFamilies(count) => {
            line.push_count(b"TooManyFamilies ", u64::from(count));
        }
        GridFault::MissingKey { family, key, part } => {
            push_key(line, b"MissingKey ", family, key, part);
        }
        GridFault::UnknownKey { family, table } => {
            push_key(line, b"UnknownKey ", family, table, Part::Whole);
        }
        GridFault::BadValue { family, key, part } => {
            push_key(line, b"BadValue ", family, key, part);
        }
        GridFault::OutOfRange { family, key, part } => {
            push_key(line, b"OutOfRange ", family, key, part);
        }
        GridFault::StepNotPositive { family, key } => {
            push_key(line, b"StepNotPositive ", family, key, Part::Whole);
        }
        GridFault::CrossesEquator { family } => {
            line.push_count(b"CrossesEquator ", u64::from(family));
        }
        GridFault::TooManyDesigns { family } => {
            line.push_count(b"TooManyDesigns ", u64::from(family));
        }
        GridFault::Memory => line.push(b"Memory"),
    }
}

/// Appends the name of a fault, a family, and a key of it with a part.
fn push_key(line: &mut Line, name: &[u8], family: u16, key: Key, part: Part)
    requires begun { length line.old ≤ 14 }
    requires room { length name.now + length (part_suffix part) ≤ 17 }
    ensures text { line.new ≡ line.old ++ (name.now ++ place_text family key part) }
    ensures short { length line.new ≤ length line.old + 46 }
{
    line.push_count(name, u64::from(family));
    line.push(b" ");
    line.push_two(key_text(key).as_bytes(), part_suffix(part));
}

fn part_suffix(part: Part) -> &'static [u8]
    ensures name { result.now ≡ part_suffix part }
    ensures short { length result.now ≤ 6 }
{
    match part {
        Part::Whole => b"",
        Part::From => b".from",
        Part::Step => b".step",
        Part::Count => b".count",
    }
}

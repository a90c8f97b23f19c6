ghost use Rattle.std.specs.Prelude.{◌≡◌, ◌≤◌, ◌+◌, ◌++◌, length};
ghost use Rattle.ldp_message.specs.CellsFault.{cells_fault_text};

use crate::line::Line;
use ldp_cells::CellsFault;

/// Appends the text of a fault of cells.
pub fn push_cells_fault(line: &mut Line, fault: CellsFault)
    requires { length line.old ≤ 16 }
    ensures text { line.new ≡ line.old ++ cells_fault_text fault }
    ensures short { length line.new ≤ length line.old + 33 }
{
    match fault {
        CellsFault::TooManyCells(count) => line.push_count(b"TooManyCells ", u64::from(count)),
        CellsFault::Memory => line.push(b"Memory"),
    }
}

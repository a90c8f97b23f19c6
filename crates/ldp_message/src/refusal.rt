ghost use Rattle.std.specs.Prelude.{◌≡◌, ◌≤◌, [], length};
ghost use Rattle.ldp_message.specs.Refusal.{refusal_status, refusal_text};

use crate::cells_fault::push_cells_fault;
use crate::file_role::FileRole;
use crate::grid_fault::push_grid_fault;
use crate::height_fault::push_height_fault;
use crate::job_fault::push_job_fault;
use crate::line::Line;
use crate::zone_fault::push_zone_fault;
use ldp_cells::CellsFault;
use ldp_grids::GridFault;
use ldp_heights::HeightFault;
use ldp_job::JobFault;
use ldp_zone::ZoneFault;

/// Why the words and the files of a command give no answer, the words being in a form.
#[derive(Clone, Copy, Debug, PartialEq, Eq)]
pub enum Refusal {
    /// A file has more than 128,000,000 bytes.
    TooLong(FileRole),
    /// The text of a zone has a fault.
    RefusedZone(ZoneFault),
    /// The text of heights has a fault.
    RefusedHeights(HeightFault),
    /// The text of design grids has a fault.
    RefusedGrids(GridFault),
    /// The text of a job has a fault.
    RefusedJob(JobFault),
    /// There are too many cells.
    RefusedCells(CellsFault),
    NoCell,
    /// The distortion of each design is undefined at a cell.
    NoUsableDesign,
    /// The budget, in nodes, is below what the search needs.
    BudgetSpent(u32),
}

impl Refusal {
    /// The exit status.
    pub fn status(self) -> u8
        ensures { result ≡ refusal_status self }
    {
        match self {
            Refusal::RefusedZone(_) => 4,
            Refusal::RefusedHeights(_) => 4,
            Refusal::RefusedGrids(_) => 4,
            Refusal::RefusedJob(_) => 4,
            Refusal::RefusedCells(_) => 4,
            Refusal::NoCell => 5,
            Refusal::NoUsableDesign => 6,
            Refusal::BudgetSpent(_) => 7,
            Refusal::TooLong(_) => 10,
        }
    }

    /// Puts the text for the error output into an empty line.
    pub fn put(self, line: &mut Line)
        requires { line.old ≡ [] }
        ensures text { line.new ≡ refusal_text self }
        ensures short { length line.new ≤ 63 }
    {
        match self {
            Refusal::TooLong(role) => line.push_two(b"too long ", role.name()),
            Refusal::RefusedZone(fault) => {
                line.push(b"refused zone ");
                push_zone_fault(line, fault);
            }
            Refusal::RefusedHeights(fault) => {
                line.push(b"refused heights ");
                push_height_fault(line, fault);
            }
            Refusal::RefusedGrids(fault) => {
                line.push(b"refused grids ");
                push_grid_fault(line, fault);
            }
            Refusal::RefusedJob(fault) => {
                line.push(b"refused job ");
                push_job_fault(line, fault);
            }
            Refusal::RefusedCells(fault) => {
                line.push(b"refused cells ");
                push_cells_fault(line, fault);
            }
            Refusal::NoCell => line.push(b"no cell"),
            Refusal::NoUsableDesign => line.push(b"no usable design"),
            Refusal::BudgetSpent(budget) => {
                line.push_count(b"budget ", u64::from(budget));
                line.push(b" spent");
            }
        }
    }
}

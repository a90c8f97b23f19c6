ghost use Rattle.std.specs.Prelude.{◌≡◌, ◌≤◌, ◌<◌, [], ◌∷◌, length, IfOk, IfNone, Ok};
ghost use Rattle.ldp_design.specs.Families.{AreGrids};
ghost use Rattle.ldp_design.specs.Designs.{IsAdmitted};
ghost use Rattle.ldp_design.specs.Forests.{IsWellShaped, node_count};
ghost use Rattle.ldp_check.specs.Printed.{SameTolerance};
ghost use Rattle.ldp_check.specs.Reports.{report_of};
ghost use Rattle.ldp_check.specs.Verdicts.{other_over, other_worst, other_report, first_some};
ghost use Rattle.ldp_check.specs.Verdicts.{reason_against, verdict_of, IsProved};

use crate::input::other_input;
use crate::printed::{forest_line, over_differs, printed, report_differs, worst_differs};
use crate::reason::Reason;
use crate::stack::Stack;
use crate::verdict::Verdict;
use crate::walk::first_fault;
use ldp_cells::Cells;
use ldp_design::{Grids, admits};
use ldp_job::{Job, Names};
use ldp_problem::{Bounds, Cost};
use std::alloc::{AllocError, Global};

/// The verdict on a certificate over these grids and cells, whose files have these hashes. It takes
/// memory for a stack alone.
pub fn check<B: Bounds>(
    alloc: Global,
    bounds: &mut B,
    grids: &Grids,
    cells: &Cells,
    names: &Names,
    job: &Job,
) -> Result<Verdict, AllocError>
    requires families { (B.problem bounds.old).families ≡ grids.now.families }
    requires cells { (B.problem bounds.old).cells ≡ length cells.now.cells }
    requires tolerance { SameTolerance (B.problem bounds.old) job.now.share }
    requires forest { IsWellShaped job.now.forest }
    ensures verdict { IfOk result (λ verdict. verdict
        ≡ verdict_of (B.problem bounds.old) cells.now names.now job.now) }
    ensures proved { result ≡ Ok Verdict.Accepted → IsProved (B.problem bounds.old) job.now }
    ensures same { B.problem bounds.new ≡ B.problem bounds.old }
{
    let mut stack = Stack::with_room(alloc, job.forest.len())?;
    Ok(check_in(&mut stack, bounds, grids, cells, names, job))
}

/// The verdict, with a stack that has room for each entry of the forest; it takes no memory.
pub fn check_in<B: Bounds>(
    stack: &mut Stack,
    bounds: &mut B,
    grids: &Grids,
    cells: &Cells,
    names: &Names,
    job: &Job,
) -> Verdict
    requires families { (B.problem bounds.old).families ≡ grids.now.families }
    requires cells { (B.problem bounds.old).cells ≡ length cells.now.cells }
    requires tolerance { SameTolerance (B.problem bounds.old) job.now.share }
    requires forest { IsWellShaped job.now.forest }
    requires room { length job.now.forest ≤ stack.old.room }
    ensures verdict { result ≡ verdict_of (B.problem bounds.old) cells.now names.now job.now }
    ensures proved { result ≡ Verdict.Accepted → IsProved (B.problem bounds.old) job.now }
    ensures same { B.problem bounds.new ≡ B.problem bounds.old }
    ensures room { stack.new.room ≡ stack.old.room }
{
    match reason_against(stack, bounds, grids, cells, names, job) {
        None => Verdict::Accepted,
        Some(reason) => Verdict::Rejected(reason),
    }
}

/// The first reason against a certificate.
fn reason_against<B: Bounds>(
    stack: &mut Stack,
    bounds: &mut B,
    grids: &Grids,
    cells: &Cells,
    names: &Names,
    job: &Job,
) -> Option<Reason>
    requires families { (B.problem bounds.old).families ≡ grids.now.families }
    requires cells { (B.problem bounds.old).cells ≡ length cells.now.cells }
    requires forest { IsWellShaped job.now.forest }
    requires room { length job.now.forest ≤ stack.old.room }
    ensures reason { result
        ≡ reason_against (B.problem bounds.old) cells.now names.now job.now }
    ensures grids { IfNone result (AreGrids grids.now.families) }
    ensures same { B.problem bounds.new ≡ B.problem bounds.old }
    ensures room { stack.new.room ≡ stack.old.room }
{
    if let Some(which) = other_input(names, job) {
        return Some(Reason::OtherInput { which });
    }
    if !admits(grids, &job.design) {
        return Some(Reason::NotAdmissible);
    }
    match bounds.cost(&job.design) {
        Cost::Unusable { cell } => Some(Reason::DesignUnusable { cell }),
        Cost::Is { over, value, cell } => {
            if let Some(reason) = printed_differs(grids, cells, job, over, value, cell) {
                return Some(reason);
            }
            let first = forest_line(&job.names);
            first_fault(stack, bounds, grids, &job.forest, printed(job), first)
        }
    }
}

/// The first reason against what is printed of the design, whose cost is this, and whose worst
/// distortion is at this cell.
fn printed_differs(
    grids: &Grids,
    cells: &Cells,
    job: &Job,
    over: u32,
    value: i128,
    cell: u32,
) -> Option<Reason>
    requires admitted { IsAdmitted grids.now.families job.now.design }
    requires cell { cell < length cells.now.cells }
    requires forest { IsWellShaped job.now.forest }
    ensures { result ≡ first_some (other_over job.now.share over
        ∷ other_worst job.now.worst value
        ∷ other_report job.now.names job.now.report (report_of grids.now.families cells.now
        job.now.design value cell (node_count job.now.forest))
        ∷ []) }
{
    if let Some(reason) = over_differs(job.share, over) {
        return Some(reason);
    }
    if let Some(reason) = worst_differs(job.worst, value) {
        return Some(reason);
    }
    report_differs(grids, cells, job, value, cell)
}

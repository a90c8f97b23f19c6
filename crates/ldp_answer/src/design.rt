ghost use Rattle.std.specs.Prelude.{◌≡◌, ◌<◌, ◌≤◌, length, IfOk, IfErr, IfSome, Ok, Err};
ghost use Rattle.std.specs.Prelude.{Option, option_map, unsigned_abs};
ghost use Rattle.ldp_cells.specs.Cells.{CellList};
ghost use Rattle.ldp_design.specs.Designs.{IsAdmitted};
ghost use Rattle.ldp_design.specs.Limits.{most_budget, IsTolerance};
ghost use Rattle.ldp_problem.specs.Problem.{Problem};
ghost use Rattle.ldp_problem.specs.Costs.{IsUsable, cost};
ghost use Rattle.ldp_job.specs.Values.{AreNames, IsWorst, IsJob};
ghost use Rattle.ldp_job.specs.declared.names.Names.{Names as NamesValue};
ghost use Rattle.ldp_check.specs.Reports.{report_of};
ghost use Rattle.ldp_answer.specs.Problem.{problem_over};
ghost use Rattle.ldp_search.specs.Search.{IsFound, HasCost};
ghost use Rattle.ldp_agreement.specs.Certificates.{share_of};
ghost use Rattle.ldp_agreement.specs.Texts.{AreValues};
ghost use Rattle.ldp_answer.specs.Works.{Works};
ghost use Rattle.ldp_answer.specs.Design.{search_job, job_over, design_over};
ghost use Rattle.ldp_answer.specs.Design.{AreNamed, IsAcceptedJob, IsAcceptedText};

use crate::answer::Answer;
use crate::fault::WorkFault;
use ldp_bound::{Bounds, Cost, Plain};
use ldp_cells::Cells;
use ldp_check::report_of;
use ldp_design::Grids;
use ldp_job::{Job, Names, Share, write_job};
use ldp_search::{Found, search};
use std::alloc::Global;

/// What `design` prints: the certificate of the best design, with the hashes of the files. At most
/// so many nodes are looked at; where there is a tolerance, in units of 10^-15, the cells beyond it
/// count first.
pub fn design_over(
    alloc: Global,
    cells: &Cells,
    grids: &Grids,
    names: &Names,
    budget: u32,
    tolerance: Option<i128>,
) -> Result<Answer, WorkFault>
    requires some { 0 < length cells.now.cells }
    requires names { AreNames names.now }
    requires few { budget ≤ most_budget }
    requires tolerance { IfSome tolerance IsTolerance }
    ensures answer { Works result (design_over cells.now grids.now.families names.now budget
        (option_map unsigned_abs tolerance)) }
    ensures accepted { IfOk result (λ answer.
        IsAcceptedText cells.now grids.now.families names.now answer.text) }
{
    let job = job_over(alloc, cells, grids, Some(*names), budget, tolerance)?;
    let text = write_job(alloc, &job)?;
    Ok(Answer {
        rejected: false,
        text,
    })
}

/// The certificate of the best design, which names these files or none. The limits are those of
/// `design_over`.
pub fn job_over(
    alloc: Global,
    cells: &Cells,
    grids: &Grids,
    names: Option<Names>,
    budget: u32,
    tolerance: Option<i128>,
) -> Result<Job, WorkFault>
    requires some { 0 < length cells.now.cells }
    requires names { IfSome names AreNames }
    requires few { budget ≤ most_budget }
    requires tolerance { IfSome tolerance IsTolerance }
    ensures job { Works result (job_over cells.now grids.now.families names budget
        (option_map unsigned_abs tolerance)) }
    ensures valid { IfOk result IsJob }
    ensures accepted { IfOk result (λ job. (present : NamesValue) → AreNamed names present
        → IsAcceptedJob cells.now grids.now.families present job) }
{
    let found = found_over(alloc, cells, grids, budget, tolerance)?;
    Ok(certificate(cells, grids, names, budget, tolerance, found))
}

/// The best design over the ranges of the projections.
fn found_over(
    alloc: Global,
    cells: &Cells,
    grids: &Grids,
    budget: u32,
    tolerance: Option<i128>,
) -> Result<Found, WorkFault>
    requires some { 0 < length cells.now.cells }
    requires few { budget ≤ most_budget }
    requires tolerance { IfSome tolerance IsTolerance }
    ensures found { IfOk result (IsFound
        (problem_over grids.now.families cells.now.cells (option_map unsigned_abs tolerance))
        budget) }
    ensures admitted { IfOk result (λ f. IsAdmitted grids.now.families f.design) }
    ensures cost { IfOk result (HasCost
        (problem_over grids.now.families cells.now.cells (option_map unsigned_abs tolerance))) }
    ensures number { IfOk result (λ f. IsWorst f.worst) }
    ensures refused { IfErr result (λ fault. (names : Option NamesValue)
        → Works (Err fault) (search_job
        (problem_over grids.now.families cells.now.cells (option_map unsigned_abs tolerance))
        cells.now names budget)) }
{
    let mut bounds = Plain::new(alloc, grids, cells, tolerance)?;
    found_by(alloc, &mut bounds, grids, budget)
}

/// The best design as the bounder tells it.
fn found_by(
    alloc: Global,
    bounds: &mut Plain,
    grids: &Grids,
    budget: u32,
) -> Result<Found, WorkFault>
    requires grids { (⟦<Plain as Bounds>⟧.problem bounds.old).families ≡ grids.now.families }
    requires few { budget ≤ most_budget }
    ensures found { IfOk result (IsFound (⟦<Plain as Bounds>⟧.problem bounds.old) budget) }
    ensures admitted { IfOk result (λ f. IsAdmitted grids.now.families f.design) }
    ensures cost { IfOk result (HasCost (⟦<Plain as Bounds>⟧.problem bounds.old)) }
    ensures number { IfOk result (λ f. IsWorst f.worst) }
    ensures refused { IfErr result (λ fault. (list : CellList) (names : Option NamesValue)
        → Works (Err fault)
        (search_job (⟦<Plain as Bounds>⟧.problem bounds.old) list names budget)) }
{
    let found = search(alloc, bounds, grids, budget)?;
    let worst = worst_of(bounds, &found);
    Ok(Found { worst, ..found })
}

/// The worst of the design that was found, as the bounder tells it: a number of at most 10^19
/// units.
fn worst_of(bounds: &mut Plain, found: &Found) -> i128
    requires admitted { IsAdmitted (⟦<Plain as Bounds>⟧.problem bounds.old).families
        found.now.design }
    requires usable { IsUsable (⟦<Plain as Bounds>⟧.problem bounds.old) found.now.design }
    requires cost { HasCost (⟦<Plain as Bounds>⟧.problem bounds.old) found.now }
    ensures same { result ≡ found.now.worst }
    ensures number { IsWorst result }
{
    match bounds.cost(&found.design) {
        Cost::Is { value, .. } => value,
        Cost::Unusable { .. } => unreachable!(),
    }
}

/// The certificate of the best design.
fn certificate(
    cells: &Cells,
    grids: &Grids,
    names: Option<Names>,
    budget: u32,
    tolerance: Option<i128>,
    found: Found,
) -> Job
    requires some { 0 < length cells.now.cells }
    requires names { IfSome names AreNames }
    requires few { budget ≤ most_budget }
    requires tolerance { IfSome tolerance IsTolerance }
    requires found { IsFound
        (problem_over grids.now.families cells.now.cells (option_map unsigned_abs tolerance))
        budget found }
    requires admitted { IsAdmitted grids.now.families found.design }
    requires cost { HasCost
        (problem_over grids.now.families cells.now.cells (option_map unsigned_abs tolerance))
        found }
    requires number { IsWorst found.worst }
    ensures job { job_over cells.now grids.now.families names budget
        (option_map unsigned_abs tolerance) ≡ Ok result }
    ensures valid { IsJob result }
    ensures accepted { (present : NamesValue) → AreNamed names present
        → IsAcceptedJob cells.now grids.now.families present result }
{
    // These calls tell what the grids and the cells keep.
    let _families = grids.families();
    let _count = cells.len();
    job_of(cells, grids, names, tolerance, found)
}

/// The job of the design that was found.
fn job_of(
    cells: &Cells,
    grids: &Grids,
    names: Option<Names>,
    tolerance: Option<i128>,
    found: Found,
) -> Job
    requires admitted { IsAdmitted grids.now.families found.design }
    requires cell { found.cell < length cells.now.cells }
    requires names { IfSome names AreNames }
    requires tolerance { IfSome tolerance IsTolerance }
    requires worst { IsWorst found.worst }
    ensures names { result.names ≡ names }
    ensures design { result.design ≡ found.design }
    ensures worst { result.worst ≡ found.worst }
    ensures share { result.share ≡ share_of (option_map unsigned_abs tolerance) found.over }
    ensures report { report_of grids.now.families cells.now found.design found.worst found.cell
        found.nodes ≡ Some result.report }
    ensures forest { result.forest ≡ found.forest }
    ensures values { AreValues result }
{
    let report = report_of(
        grids,
        cells,
        &found.design,
        found.worst,
        found.cell,
        found.nodes,
    );
    Job {
        names,
        design: found.design,
        worst: found.worst,
        share: share_with(tolerance, found.over),
        report,
        forest: found.forest,
    }
}

/// Where cells beyond a tolerance are counted, their number and the tolerance.
fn share_with(tolerance: Option<i128>, over: u32) -> Option<Share>
    requires { IfSome tolerance IsTolerance }
    ensures { result ≡ share_of (option_map unsigned_abs tolerance) over }
{
    match tolerance {
        Some(tolerance) => Some(Share { over, tolerance }),
        None => None,
    }
}

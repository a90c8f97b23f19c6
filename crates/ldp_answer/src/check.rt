ghost use Rattle.std.specs.Prelude.{◌≡◌, ◌<◌, false, pos, unsigned_abs, length, option_map};
ghost use Rattle.std.specs.Prelude.{IfSome, IfOk, Ok};
ghost use Rattle.ldp_design.specs.Limits.{IsTolerance};
ghost use Rattle.ldp_job.specs.Values.{IsShare, IsJob};
ghost use Rattle.ldp_check.specs.Verdicts.{IsProved};
ghost use Rattle.ldp_answer.specs.Check.{tolerance_of, job_problem, verdict_over};
ghost use Rattle.ldp_answer.specs.Check.{check_text, check_over};

use crate::answer::Answer;
use crate::rejection::rejection;
use ldp_bound::Plain;
use ldp_cells::Cells;
use ldp_check::{Verdict, check};
use ldp_decimal::{Memory, Text};
use ldp_design::Grids;
use ldp_job::{Job, Names, Share};
use std::alloc::Global;

/// What `check` prints: whether a job is accepted over the cells of a zone, and if not, why.
pub fn check_over(
    alloc: Global,
    cells: &Cells,
    grids: &Grids,
    names: &Names,
    job: &Job,
) -> Result<Answer, Memory>
    requires some { 0 < length cells.now.cells }
    requires job { IsJob job.now }
    ensures answer { IfOk result (λ answer.
        answer ≡ check_over cells.now grids.now.families names.now job.now) }
    ensures proved { IfOk result (λ answer. answer.rejected ≡ false
        → IsProved (job_problem cells.now grids.now.families job.now) job.now) }
{
    match verdict_over(alloc, cells, grids, names, job)? {
        Verdict::Accepted => accepted(alloc),
        Verdict::Rejected(reason) => rejection(alloc, &reason),
    }
}

/// The answer for a job that is accepted.
fn accepted(alloc: Global) -> Result<Answer, Memory>
    ensures { IfOk result (λ answer. answer ≡ check_text Verdict.Accepted) }
{
    let mut text = Text::new(alloc);
    text.push(b"accepted\n")?;
    Ok(Answer {
        rejected: false,
        text,
    })
}

/// The verdict on a job, over the ranges of the projections.
pub fn verdict_over(
    alloc: Global,
    cells: &Cells,
    grids: &Grids,
    names: &Names,
    job: &Job,
) -> Result<Verdict, Memory>
    requires some { 0 < length cells.now.cells }
    requires job { IsJob job.now }
    ensures verdict { IfOk result (λ verdict.
        verdict ≡ verdict_over cells.now grids.now.families names.now job.now) }
    ensures proved { result ≡ Ok Verdict.Accepted
        → IsProved (job_problem cells.now grids.now.families job.now) job.now }
{
    let mut bounds = Plain::new(alloc, grids, cells, tolerance_of(&job.share))?;
    check(alloc, &mut bounds, grids, cells, names, job)
}

/// The tolerance of a job, in units of 10^-15.
fn tolerance_of(share: &Option<Share>) -> Option<i128>
    requires { IfSome share.now IsShare }
    ensures value { option_map unsigned_abs result ≡ tolerance_of share.now }
    ensures same { option_map pos (tolerance_of share.now)
        ≡ option_map (λ share. share.tolerance) share.now }
    ensures range { IfSome result IsTolerance }
{
    match share {
        None => None,
        Some(share) => Some(share.tolerance),
    }
}

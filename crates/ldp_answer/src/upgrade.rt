ghost use Rattle.std.specs.Prelude.{◌≡◌, ◌<◌, length, IfOk};
ghost use Rattle.ldp_job.specs.Values.{AreNames, IsJob};
ghost use Rattle.ldp_answer.specs.Check.{named, upgrade_over};

use crate::answer::Answer;
use crate::check::verdict_over;
use crate::rejection::rejection;
use ldp_cells::Cells;
use ldp_check::Verdict;
use ldp_decimal::Memory;
use ldp_design::Grids;
use ldp_job::{Job, Names, write_job};
use std::alloc::Global;

/// What `upgrade` prints: the text of a job that is accepted, with the hashes of the files that it
/// was checked over.
pub fn upgrade_over(
    alloc: Global,
    cells: &Cells,
    grids: &Grids,
    names: &Names,
    job: Job,
) -> Result<Answer, Memory>
    requires some { 0 < length cells.now.cells }
    requires names { AreNames names.now }
    requires job { IsJob job }
    ensures { IfOk result (λ answer.
        answer ≡ upgrade_over cells.now grids.now.families names.now job) }
{
    match verdict_over(alloc, cells, grids, names, &job)? {
        Verdict::Accepted => Ok(Answer {
            rejected: false,
            text: write_job(alloc, &named(names, job))?,
        }),
        Verdict::Rejected(reason) => rejection(alloc, &reason),
    }
}

/// The job with the names of its files.
fn named(names: &Names, job: Job) -> Job
    requires names { AreNames names.now }
    requires job { IsJob job }
    ensures job { result ≡ named names.now job }
    ensures valid { IsJob result }
{
    Job {
        names: Some(*names),
        ..job
    }
}

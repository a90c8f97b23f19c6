ghost use Rattle.std.specs.Prelude.{◌≡◌, IfOk};
ghost use Rattle.ldp_answer.specs.JobDesign.{admitted_family};
ghost use Rattle.ldp_answer.specs.Wkt.{other_grids, line_answer, wkt_over};

use crate::answer::Answer;
use crate::rejection::rejection;
use ldp_check::Reason;
use ldp_decimal::Memory;
use ldp_design::{Design, Grids, admits};
use ldp_job::{Job, Role};
use ldp_wkt2::{crs_of, write_crs};
use std::alloc::Global;

/// What `wkt` prints: the line of the coordinate reference system of a job's design. The hash is
/// that of the file of the grids.
pub fn wkt_over(alloc: Global, grids: &Grids, hash: &[u8; 32], job: &Job) -> Result<Answer, Memory>
    ensures { IfOk result (λ answer. answer ≡ wkt_over grids.now.families hash.now job.now) }
{
    match other_grids(hash, job) {
        Some(which) => rejection(alloc, &Reason::OtherInput { which }),
        None => line_answer(alloc, grids, &job.design),
    }
}

/// The grids, where their hash is not the one that a job has.
fn other_grids(hash: &[u8; 32], job: &Job) -> Option<Role>
    ensures { result ≡ other_grids hash.now job.now.names }
{
    let Some(named) = &job.names else {
        return None;
    };
    if *hash == named.grids {
        None
    } else {
        Some(Role::Grids)
    }
}

fn line_answer(alloc: Global, grids: &Grids, d: &Design) -> Result<Answer, Memory>
    ensures { IfOk result (λ answer.
        answer ≡ line_answer d.now (admitted_family grids.now.families d.now)) }
{
    if !admits(grids, d) {
        return rejection(alloc, &Reason::NotAdmissible);
    }
    let text = write_crs(alloc, &crs_of(grids, d))?;
    Ok(Answer {
        rejected: false,
        text,
    })
}

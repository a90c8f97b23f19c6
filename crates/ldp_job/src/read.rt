ghost use Rattle.std.specs.Prelude.{◌≡◌, ◌≢◌, ◌≤◌, Ok, Err, IfOk};
ghost use Rattle.ldp_job.specs.declared.job.Job.{Job as JobValue};
ghost use Rattle.ldp_job.specs.Values.{IsJob};
ghost use Rattle.ldp_job.specs.Texts.{job_text};
ghost use Rattle.ldp_job.specs.Reading.{design_number, whole_forest_at, parts_at, job, IsTextOf};

use crate::fault::JobFault;
use crate::job::Job;
use crate::names::Names;
use crate::objective::{design_line, worst_line};
use crate::report::report_lines;
use crate::trees::forest_lines;
use crate::version::{names, version_line};
use ldp_design::Forest;
use ldp_spelling::Lines;
use std::alloc::Global;

/// The number of the line `design`.
fn design_number(names: &Option<Names>) -> u32
    ensures value { result ≡ design_number names.now }
    ensures small { result ≤ 5 }
{
    match names {
        None => 2,
        Some(_) => 5,
    }
}

/// The entries up to the end of the text; the first line has this number.
#[tactic(auto, unfolding(crate::specs::Reading::whole_forest_at))]
fn whole_forest(alloc: Global, lines: &mut Lines<'_>, first: u32) -> Result<Forest, JobFault>
    requires { first ≤ 100 }
    ensures { result ≢ Err JobFault.Memory → result ≡ whole_forest_at first lines.old }
{
    let forest = forest_lines(alloc, lines, first)?;
    if lines.is_empty() {
        Ok(forest)
    } else {
        Err(JobFault::Trailing(first + forest.len() as u32 + 1))
    }
}

/// The lines behind the names.
#[tactic(auto, unfolding(crate::specs::Reading::parts_at))]
fn parts(alloc: Global, names: Option<Names>, lines: &mut Lines<'_>) -> Result<Job, JobFault>
    ensures { result ≢ Err JobFault.Memory
        → result ≡ parts_at (design_number names) names lines.old }
{
    let first = design_number(&names);
    let design = design_line(lines, first)?;
    let (worst, share) = worst_line(lines, first + 1)?;
    let report = report_lines(lines, first + 2)?;
    let forest = whole_forest(alloc, lines, first + 11)?;
    Ok(Job {
        names,
        design,
        worst,
        share,
        report,
        forest,
    })
}

#[tactic(auto, unfolding(crate::specs::Reading::job))]
fn read(alloc: Global, text: &[u8]) -> Result<Job, JobFault>
    ensures exact { result ≢ Err JobFault.Memory → result ≡ job text.now }
{
    let mut lines = Lines::of_text(text);
    let version = version_line(&mut lines)?;
    let names = names(&mut lines, version)?;
    parts(alloc, names, &mut lines)
}

/// The job of a text of version 1 or 2, or its first fault. The depth of its trees costs no depth
/// of calls.
pub fn read_job(alloc: Global, text: &[u8]) -> Result<Job, JobFault>
    ensures exact { result ≢ Err JobFault.Memory → result ≡ job text.now }
    ensures found { IfOk result (IsTextOf text.now) }
    ensures only { (j : JobValue) → IsJob j → text.now ≡ job_text j → result ≢ Err JobFault.Memory
        → result ≡ Ok j }
{
    read(alloc, text)
}

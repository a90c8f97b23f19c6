ghost use Rattle.std.specs.Prelude.{◌≡◌, ◌<◌, length, IfErr, IfOk, IfSome, map, string_bytes};
ghost use Rattle.ldp_job.specs.Values.{AreNames, IsJob};
ghost use Rattle.ldp_cli.specs.Files.{ServesFrom, Gives, StopsIn};
ghost use Rattle.ldp_cli.specs.Certificate.{JobRequest, job_request, job_files, certificate_read};

use crate::inputs::take_job;
use crate::problem_files::{ProblemWords, take_problem};
use crate::stop::Stop;
use ldp_answer::cells_over;
use ldp_cells::Cells;
use ldp_design::Grids;
use ldp_io::Shelf;
use ldp_job::{Job, Names};
use std::alloc::Global;
use std::marker::Model;

/// The words after the name of a command over a job.
#[derive(Drop)]
pub struct JobWords<'a> {
    pub problem: ProblemWords<'a>,
    pub job: &'a str,
}

impl<'a> Model for JobWords<'a> {
    ghost Value = { JobRequest };

    ghost view = { λ words. record { problem = words.problem; job = words.job.now } };
}

/// A job, and what it is judged by.
#[derive(Drop)]
pub struct Certificate {
    pub cells: Cells,
    pub grids: Grids,
    pub names: Names,
    pub job: Job,
}

/// The words after the name of a command over a job, if they are in its form.
pub fn job_words(words: &[String]) -> Option<JobWords<'_>>
    ensures { result ≡ job_request (map string_bytes words.now) }
{
    match words {
        [zone, heights, grids, job] => Some(JobWords {
            problem: ProblemWords {
                zone: zone.as_str(),
                heights: heights.as_str(),
                grids: grids.as_str(),
            },
            job: job.as_str(),
        }),
        _ => None,
    }
}

/// Reads the four files, and then forms the cells, of which there is at least one.
pub fn take_certificate<H: Shelf>(
    alloc: Global,
    shelf: &mut H,
    words: &JobWords<'_>,
) -> Result<Certificate, Stop>
    requires { ServesFrom (H.serves shelf.old) 0 (job_files words.now) }
    ensures told { IfSome (H.files shelf.old) (λ files.
        Gives result (certificate_read words.now files)) }
    ensures stops { IfErr result (λ stop. StopsIn (job_files words.now) stop
        (H.faults shelf.old) (H.faults shelf.new) (H.files shelf.old)) }
    ensures some { IfOk result (λ read. 0 < length read.cells.cells) }
    ensures names { IfOk result (λ read. AreNames read.names) }
    ensures job { IfOk result (λ read. IsJob read.job) }
{
    let problem = take_problem(alloc, shelf, &words.problem)?;
    let job = take_job(alloc, shelf, 3, words.job)?;
    let cells = cells_over(alloc, &problem.zone, &problem.heights)?;
    Ok(Certificate {
        cells,
        grids: problem.grids,
        names: problem.names,
        job,
    })
}

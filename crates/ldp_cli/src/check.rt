ghost use Rattle.std.specs.Prelude.{◌≡◌, false, IfErr, IfOk, IfSome};
ghost use Rattle.ldp_cli.specs.Files.{ServesFrom, Gives, StopsIn};
ghost use Rattle.ldp_cli.specs.Certificate.{job_files, IsShown};
ghost use Rattle.ldp_cli.specs.Check.{check_answer, upgrade_answer, IsUpgraded};

use crate::certificate::{Certificate, JobWords, take_certificate};
use crate::stop::Stop;
use ldp_answer::{Answer, check_over, upgrade_over};
use ldp_io::Shelf;
use std::alloc::Global;

/// Whether a job is accepted.
pub fn check<H: Shelf>(alloc: Global, shelf: &mut H, words: &JobWords<'_>) -> Result<Answer, Stop>
    requires { ServesFrom (H.serves shelf.old) 0 (job_files words.now) }
    ensures told { IfSome (H.files shelf.old) (λ files.
        Gives result (check_answer words.now files)) }
    ensures stops { IfErr result (λ stop. StopsIn (job_files words.now) stop
        (H.faults shelf.old) (H.faults shelf.new) (H.files shelf.old)) }
    ensures shown { IfOk result (λ answer. answer.rejected ≡ false
        → IfSome (H.files shelf.old) (λ files. IsShown words.now files)) }
{
    let read = take_certificate(alloc, shelf, words)?;
    Ok(check_over(alloc, &read.cells, &read.grids, &read.names, &read.job)?)
}

/// The text of a job that is accepted, with the hashes of its files.
pub fn upgrade<H: Shelf>(alloc: Global, shelf: &mut H, words: &JobWords<'_>) -> Result<Answer, Stop>
    requires { ServesFrom (H.serves shelf.old) 0 (job_files words.now) }
    ensures told { IfSome (H.files shelf.old) (λ files.
        Gives result (upgrade_answer words.now files)) }
    ensures stops { IfErr result (λ stop. StopsIn (job_files words.now) stop
        (H.faults shelf.old) (H.faults shelf.new) (H.files shelf.old)) }
    ensures upgraded { IfOk result (λ answer. answer.rejected ≡ false
        → IfSome (H.files shelf.old) (λ files. IsUpgraded words.now files)) }
{
    let Certificate {
        cells,
        grids,
        names,
        job,
    } = take_certificate(alloc, shelf, words)?;
    Ok(upgrade_over(alloc, &cells, &grids, &names, job)?)
}

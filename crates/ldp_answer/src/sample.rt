ghost use Rattle.std.specs.Prelude.{◌≡◌, ◌<◌, ◌++◌, false, length, IfOk, OnOk};
ghost use Rattle.ldp_spelling.specs.Pieces.{lines};
ghost use Rattle.ldp_job.specs.Values.{IsJob};
ghost use Rattle.ldp_answer.specs.Works.{Works};
ghost use Rattle.ldp_answer.specs.SampleInputs.{IsSampleNumber};
ghost use Rattle.ldp_answer.specs.Sample.{sample_line, sample_text, report_lines, sample_over};
ghost use Rattle.ldp_answer.specs.Sample.{EndsAccepted};

use crate::answer::Answer;
use crate::check::check_over;
use crate::design::job_over;
use crate::fault::WorkFault;
use crate::sample_cells::sample_cells;
use crate::sample_family::sample_grids;
use itoa::Buffer;
use ldp_decimal::{Memory, Text};
use ldp_design::MOST_BUDGET;
use ldp_job::{Job, Names, write_job};
use ldp_spelling::Lines;
use std::alloc::Global;

/// The lines of a certificate before its forest, but for the version.
const REPORT_LINES: usize = 11;

/// Hashes for the checker, which the certificate of a sample does not name.
const NO_FILES: Names = Names {
    zone: [0; 32],
    heights: [0; 32],
    grids: [0; 32],
};

/// What `sample` prints: the best of `number` times `number` designs over a zone of its own, and
/// the checker's verdict on its certificate.
pub fn sample_over(alloc: Global, number: u32) -> Result<Answer, WorkFault>
    requires { IsSampleNumber number }
    ensures answer { Works result (sample_over number) }
    ensures done { IfOk result (λ answer. answer.rejected ≡ false) }
    ensures accepted { IfOk result (λ answer. EndsAccepted answer.text) }
{
    let cells = sample_cells(alloc, number)?;
    let grids = sample_grids(alloc, number)?;
    let job = job_over(alloc, &cells, &grids, None, MOST_BUDGET, None)?;
    let checked = check_over(alloc, &cells, &grids, &NO_FILES, &job)?;
    let text = sample_text(alloc, number, &job, checked.text.bytes())?;
    Ok(Answer {
        rejected: false,
        text,
    })
}

/// The short text of a certificate and of what is said of it.
fn sample_text(alloc: Global, number: u32, job: &Job, checked: &[u8]) -> Result<Text, Memory>
    requires { IsJob job.now }
    ensures { IfOk result (λ text. text ≡ sample_text number job.now checked.now) }
{
    let certificate = write_job(alloc, job)?;
    let mut text = Text::new(alloc);
    push_sample_line(&mut text, number)?;
    push_report(&mut text, certificate.bytes())?;
    text.push(checked)?;
    Ok(text)
}

fn push_sample_line(text: &mut Text, number: u32) -> Result<(), Memory>
    ensures { OnOk result (text.new ≡ text.old ++ sample_line number) }
{
    text.push(b"sample ")?;
    text.push(Buffer::new().format(number).as_bytes())?;
    text.push(b"\n")
}

/// Appends lines 2 to 12 of a certificate.
fn push_report(text: &mut Text, certificate: &[u8]) -> Result<(), Memory>
    requires { 12 < length (lines certificate.now) }
    ensures { OnOk result (text.new ≡ text.old ++ report_lines certificate.now) }
{
    let mut lines = Lines::of_text(certificate);
    let _version = lines.next();
    for _ in 0..REPORT_LINES {
        let Some(line) = lines.next() else {
            unreachable!()
        };
        text.push(line)?;
        text.push(b"\n")?;
    }
    Ok(())
}

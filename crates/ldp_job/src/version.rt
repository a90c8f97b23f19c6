ghost use Rattle.std.specs.Prelude.{◌≡◌, ◌⊎◌, Ok, Err, MatchResult, IfOk};
ghost use Rattle.ldp_spelling.specs.Pieces.{words};
ghost use Rattle.ldp_job.specs.Lines.{version_in};
ghost use Rattle.ldp_job.specs.Reading.{version_line, hashes_at, names_at};

use crate::fault::JobFault;
use crate::line::hash_line;
use crate::names::Names;
use crate::objective::MOST;
use crate::word::{name, number};
use ldp_spelling::{Lines, Words};

#[tactic(auto, unfolding(crate::specs::Lines::version_in))]
fn version(line: &[u8]) -> Option<u32>
    ensures { result ≡ version_in (words line.now) }
{
    let mut words = Words::of_line(line);
    name(&mut words, b"ldp")?;
    name(&mut words, b"job")?;
    let version = number(&mut words, 0, MOST)? as u32;
    if words.is_empty() {
        Some(version)
    } else {
        None
    }
}

/// The version of a job, which is 1 or 2.
#[tactic(auto, unfolding(crate::specs::Reading::version_line))]
pub fn version_line(lines: &mut Lines<'_>) -> Result<u32, JobFault>
    ensures { MatchResult result (λ version. version_line lines.old ≡ Ok (version, lines.new))
        (λ fault. version_line lines.old ≡ Err fault) }
{
    let line = lines.next().ok_or(JobFault::NotAJob)?;
    let version = version(line).ok_or(JobFault::NotAJob)?;
    if version == 1 || version == 2 {
        Ok(version)
    } else {
        Err(JobFault::Version(version))
    }
}

#[tactic(auto, unfolding(crate::specs::Reading::hashes_at))]
fn hash_lines(lines: &mut Lines<'_>) -> Result<Names, JobFault>
    ensures { MatchResult result (λ names. hashes_at lines.old ≡ Ok (names, lines.new))
        (λ fault. hashes_at lines.old ≡ Err fault) }
{
    let zone = hash_line(lines, 2, b"zone")?;
    let heights = hash_line(lines, 3, b"heights")?;
    let grids = hash_line(lines, 4, b"grids")?;
    Ok(Names {
        zone,
        heights,
        grids,
    })
}

/// The names of the files, which version 1 has not.
#[tactic(auto, unfolding(crate::specs::Reading::names_at))]
pub fn names(lines: &mut Lines<'_>, version: u32) -> Result<Option<Names>, JobFault>
    ensures { MatchResult result (λ names. names_at version lines.old ≡ Ok (names, lines.new))
        (λ fault. names_at version lines.old ≡ Err fault) }
{
    if version == 1 {
        return Ok(None);
    }
    Ok(Some(hash_lines(lines)?))
}

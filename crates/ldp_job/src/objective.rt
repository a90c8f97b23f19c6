ghost use Rattle.std.specs.Prelude.{◌≡◌, Ok, Err, MatchResult};
ghost use Rattle.ldp_spelling.specs.Pieces.{words};
ghost use Rattle.ldp_job.specs.Lines.{design_in, share_in, share_after, worst_in};
ghost use Rattle.ldp_job.specs.Faults.{line_by};

use crate::fault::JobFault;
use crate::line::next_line;
use crate::share::Share;
use crate::word::{name, number};
use ldp_design::{Design, MOST_TOLERANCE};
use ldp_num::LIMIT;
use ldp_spelling::{Lines, Words};

/// The greatest index or count.
pub const MOST: u64 = 4_294_967_295;

/// The greatest absolute distortion.
pub const GREATEST: u64 = LIMIT as u64;

#[tactic(auto, unfolding(crate::specs::Lines::design_in))]
fn design(line: &[u8]) -> Option<Design>
    ensures { result ≡ design_in (words line.now) }
{
    let mut words = Words::of_line(line);
    name(&mut words, b"design")?;
    let family = number(&mut words, 1, 65535)? as u16;
    let lat = number(&mut words, 0, MOST)? as u32;
    let lon = number(&mut words, 0, MOST)? as u32;
    let azimuth = number(&mut words, 0, MOST)? as u32;
    let scale = number(&mut words, 0, MOST)? as u32;
    if !words.is_empty() {
        return None;
    }
    Some(Design {
        family,
        lat,
        lon,
        azimuth,
        scale,
    })
}

#[tactic(auto, unfolding(crate::specs::Lines::share_in))]
fn share(words: &mut Words<'_>) -> Option<Share>
    ensures { result ≡ share_in words.old }
{
    name(words, b"over")?;
    let over = number(words, 0, MOST)? as u32;
    name(words, b"beyond")?;
    let tolerance = number(words, 0, MOST_TOLERANCE)? as i128;
    if words.is_empty() {
        Some(Share { over, tolerance })
    } else {
        None
    }
}

#[tactic(auto, unfolding(crate::specs::Lines::share_after))]
fn share_after(words: &mut Words<'_>) -> Option<Option<Share>>
    ensures { result ≡ share_after words.old }
{
    if words.is_empty() {
        return Some(None);
    }
    Some(Some(share(words)?))
}

#[tactic(auto, unfolding(crate::specs::Lines::worst_in))]
fn worst(line: &[u8]) -> Option<(i128, Option<Share>)>
    ensures { result ≡ worst_in (words line.now) }
{
    let mut words = Words::of_line(line);
    name(&mut words, b"worst")?;
    let worst = number(&mut words, 0, GREATEST)? as i128;
    let share = share_after(&mut words)?;
    Some((worst, share))
}

/// The line `design`: the family's number, from 1, and the index on each axis, from 0.
#[tactic(auto, unfolding(crate::specs::Faults::line_by))]
pub fn design_line(lines: &mut Lines<'_>, number: u32) -> Result<Design, JobFault>
    ensures { MatchResult result
        (λ design. line_by number design_in lines.old ≡ Ok (design, lines.new))
        (λ fault. line_by number design_in lines.old ≡ Err fault) }
{
    let line = next_line(lines, number)?;
    design(line).ok_or(JobFault::BadLine(number))
}

/// The line of the worst value, and of the cells beyond a tolerance where it speaks of them.
#[tactic(auto, unfolding(crate::specs::Faults::line_by))]
pub fn worst_line(lines: &mut Lines<'_>, number: u32) -> Result<(i128, Option<Share>), JobFault>
    ensures { MatchResult result
        (λ worst. line_by number worst_in lines.old ≡ Ok (worst, lines.new))
        (λ fault. line_by number worst_in lines.old ≡ Err fault) }
{
    let line = next_line(lines, number)?;
    worst(line).ok_or(JobFault::BadLine(number))
}

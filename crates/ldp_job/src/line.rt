ghost use Rattle.std.specs.Prelude.{◌≡◌, ◌≤◌, ◌≤ℤ◌, ℤ, pos, neg_ℤ, None, Some, Ok, Err};
ghost use Rattle.std.specs.Prelude.{MatchOption, MatchResult};
ghost use Rattle.ldp_spelling.specs.Pieces.{words, ended};
ghost use Rattle.ldp_num.specs.Number.{limit};
ghost use Rattle.ldp_spelling.specs.Numbers.{trimmed_in, fixed_in, whole_in};
ghost use Rattle.ldp_spelling.specs.Hashes.{hash_in};
ghost use Rattle.ldp_design.specs.Words.{axis_text};
ghost use Rattle.ldp_job.specs.declared.fault.JobFault.TheVariants.{BadLine, Unended};
ghost use Rattle.ldp_job.specs.Words.{named_in};
ghost use Rattle.ldp_job.specs.Lines.{file_in, kind_in, at_in, cells_in, nodes_in, ppm_in};
ghost use Rattle.ldp_job.specs.Faults.{line_by};

use crate::fault::JobFault;
use crate::objective::{GREATEST, MOST};
use crate::word::{lone_word, name, number};
use ldp_design::{AxisName, Kind, axis_text, kind_named};
use ldp_spelling::{Lines, Words, read_fixed, read_hash, read_trimmed, read_whole};

/// Takes the line with this number.
pub fn next_line<'a>(lines: &mut Lines<'a>, number: u32) -> Result<&'a [u8], JobFault>
    ensures { MatchResult result (λ line. ended lines.old ≡ Some (line.now, lines.new))
        (λ fault. (ended lines.old ≡ None) × (fault ≡ Unended number)) }
{
    lines.next().ok_or(JobFault::Unended(number))
}

/// A line with the hash of a file.
#[tactic(auto, unfolding(crate::specs::Faults::line_by))]
pub fn hash_line(lines: &mut Lines<'_>, number: u32, name: &[u8]) -> Result<[u8; 32], JobFault>
    ensures { let read = file_in name.now in
        MatchResult result (λ hash. line_by number read lines.old ≡ Ok (hash, lines.new))
        (λ fault. line_by number read lines.old ≡ Err fault) }
{
    let line = next_line(lines, number)?;
    match lone_word(line, name).and_then(|word| read_hash(word)) {
        Some(hash) => Ok(hash),
        None => Err(JobFault::BadLine(number)),
    }
}

/// A line with the trimmed number of an axis.
#[tactic(auto, unfolding(crate::specs::Faults::line_by))]
pub fn trimmed_line(
    lines: &mut Lines<'_>,
    number: u32,
    axis: AxisName,
    places: u32,
    low: i128,
    high: i128,
) -> Result<i128, JobFault>
    requires places { (1 ≤ places) × (places ≤ 15) }
    requires low { neg_ℤ (pos limit) ≤ℤ low }
    requires high { high ≤ℤ pos limit }
    ensures { let read = named_in (axis_text axis) (trimmed_in places low high) in
        MatchResult result (λ z. line_by number read lines.old ≡ Ok (z, lines.new))
        (λ fault. line_by number read lines.old ≡ Err fault) }
{
    let line = next_line(lines, number)?;
    let name = axis_text(axis).as_bytes();
    match lone_word(line, name).and_then(|word| read_trimmed(word, places, low, high)) {
        Some(value) => Ok(value),
        None => Err(JobFault::BadLine(number)),
    }
}

/// The line of the worst in parts per million.
#[tactic(auto, unfolding(crate::specs::Faults::line_by))]
pub fn ppm_line(lines: &mut Lines<'_>, number: u32) -> Result<i128, JobFault>
    ensures { MatchResult result (λ z. line_by number ppm_in lines.old ≡ Ok (z, lines.new))
        (λ fault. line_by number ppm_in lines.old ≡ Err fault) }
{
    let line = next_line(lines, number)?;
    match lone_word(line, b"ppm").and_then(|word| read_fixed(word, 9, 0, GREATEST as i128)) {
        Some(value) => Ok(value),
        None => Err(JobFault::BadLine(number)),
    }
}

/// The line `kind`.
#[tactic(auto, unfolding(crate::specs::Faults::line_by))]
pub fn kind_line(lines: &mut Lines<'_>, number: u32) -> Result<Kind, JobFault>
    ensures { MatchResult result (λ kind. line_by number kind_in lines.old ≡ Ok (kind, lines.new))
        (λ fault. line_by number kind_in lines.old ≡ Err fault) }
{
    let line = next_line(lines, number)?;
    match lone_word(line, b"kind").and_then(|word| kind_named(word)) {
        Some(kind) => Ok(kind),
        None => Err(JobFault::BadLine(number)),
    }
}

/// The line `nodes`: the number of nodes of the forest.
#[tactic(auto, unfolding(crate::specs::Faults::line_by))]
pub fn nodes_line(lines: &mut Lines<'_>, number: u32) -> Result<u32, JobFault>
    ensures { MatchResult result (λ n. line_by number nodes_in lines.old ≡ Ok (n, lines.new))
        (λ fault. line_by number nodes_in lines.old ≡ Err fault) }
{
    let line = next_line(lines, number)?;
    match lone_word(line, b"nodes").and_then(|word| read_whole(word, 0, MOST)) {
        Some(nodes) => Ok(nodes as u32),
        None => Err(JobFault::BadLine(number)),
    }
}

#[tactic(auto, unfolding(crate::specs::Lines::at_in))]
fn at(line: &[u8]) -> Option<(u32, u32)>
    ensures { result ≡ at_in (words line.now) }
{
    let mut words = Words::of_line(line);
    name(&mut words, b"at")?;
    let row = number(&mut words, 0, MOST)? as u32;
    let col = number(&mut words, 0, MOST)? as u32;
    if words.is_empty() {
        Some((row, col))
    } else {
        None
    }
}

#[tactic(auto, unfolding(crate::specs::Lines::cells_in))]
fn cells(line: &[u8]) -> Option<(u32, u32)>
    ensures { result ≡ cells_in (words line.now) }
{
    let mut words = Words::of_line(line);
    name(&mut words, b"cells")?;
    let cells = number(&mut words, 0, MOST)? as u32;
    name(&mut words, b"missing")?;
    let missing = number(&mut words, 0, MOST)? as u32;
    if words.is_empty() {
        Some((cells, missing))
    } else {
        None
    }
}

/// The line `at`: row and column of the worst, both from 0.
#[tactic(auto, unfolding(crate::specs::Faults::line_by))]
pub fn at_line(lines: &mut Lines<'_>, number: u32) -> Result<(u32, u32), JobFault>
    ensures { MatchResult result (λ at. line_by number at_in lines.old ≡ Ok (at, lines.new))
        (λ fault. line_by number at_in lines.old ≡ Err fault) }
{
    let line = next_line(lines, number)?;
    at(line).ok_or(JobFault::BadLine(number))
}

/// The line `cells`: how many cells there are, and how many places in the zone lack a height.
#[tactic(auto, unfolding(crate::specs::Faults::line_by))]
pub fn cells_line(lines: &mut Lines<'_>, number: u32) -> Result<(u32, u32), JobFault>
    ensures { MatchResult result
        (λ cells. line_by number cells_in lines.old ≡ Ok (cells, lines.new))
        (λ fault. line_by number cells_in lines.old ≡ Err fault) }
{
    let line = next_line(lines, number)?;
    cells(line).ok_or(JobFault::BadLine(number))
}

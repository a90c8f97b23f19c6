ghost use Rattle.std.specs.Prelude.{◌≡◌, ◌≤◌, ◌++◌, [], ◌∷◌, ◌≤ℤ◌, pos, negsuc, map, take, length};
ghost use Rattle.std.specs.Prelude.{codes, decimal, OnOk, IfOk, IfSome};
ghost use Rattle.ldp_decimal.specs.Writing.{trimmed_text};
ghost use Rattle.ldp_num.specs.Number.{limit};
ghost use Rattle.ldp_spelling.specs.Texts.{line_text, lines_text};
ghost use Rattle.ldp_design.specs.Words.{axis_text, kind_text};
ghost use Rattle.ldp_job.specs.Values.{IsWorst, IsShare, IsReport, IsJob};
ghost use Rattle.ldp_job.specs.Texts.{version_words, names_words, design_words, share_words};
ghost use Rattle.ldp_job.specs.Texts.{worst_words, entry_words, forest_words, job_text};
ghost use Rattle.ldp_job.specs.Pushed.{spaced, projection_words, place_words, counts_words};
ghost use Rattle.ldp_job.specs.Pushed.{cell_words};

use crate::job::Job;
use crate::names::Names;
use crate::report::Report;
use crate::share::Share;
use ldp_decimal::{Memory, Text, write_decimal, write_trimmed};
use ldp_design::{AxisName, Design, Forest, Kind, Node, axis_text, kind_text};
use ldp_spelling::{hash_digits, push_whole};
use std::alloc::Global;

/// A line of a name and a word.
fn push_named(text: &mut Text, name: &[u8], word: &[u8]) -> Result<(), Memory>
    ensures { OnOk result (text.new ≡ text.old ++ line_text (name.now ∷ word.now ∷ [])) }
{
    text.push(name)?;
    text.push(b" ")?;
    text.push(word)?;
    text.push(b"\n")
}

fn push_version(text: &mut Text, names: &Option<Names>) -> Result<(), Memory>
    ensures { OnOk result (text.new ≡ text.old ++ line_text (version_words names.now)) }
{
    text.push(b"ldp job")?;
    push_whole(text, if names.is_some() { 2 } else { 1 })?;
    text.push(b"\n")
}

fn push_hashes(text: &mut Text, names: &Names) -> Result<(), Memory>
    ensures { OnOk result (text.new ≡ text.old ++ lines_text (names_words (Some names.now))) }
{
    push_named(text, b"zone", &hash_digits(&names.zone))?;
    push_named(text, b"heights", &hash_digits(&names.heights))?;
    push_named(text, b"grids", &hash_digits(&names.grids))
}

fn push_names(text: &mut Text, names: &Option<Names>) -> Result<(), Memory>
    ensures { OnOk result (text.new ≡ text.old ++ lines_text (names_words names.now)) }
{
    match names {
        Some(names) => push_hashes(text, names),
        None => Ok(()),
    }
}

fn push_design(text: &mut Text, design: &Design) -> Result<(), Memory>
    ensures { OnOk result (text.new ≡ text.old ++ line_text (design_words design.now)) }
{
    text.push(b"design")?;
    push_whole(text, design.family as u64)?;
    push_whole(text, design.lat as u64)?;
    push_whole(text, design.lon as u64)?;
    push_whole(text, design.azimuth as u64)?;
    push_whole(text, design.scale as u64)?;
    text.push(b"\n")
}

/// The words of a share, with a space before each.
fn push_share(text: &mut Text, share: &Option<Share>) -> Result<(), Memory>
    requires { IfSome share.now IsShare }
    ensures { OnOk result (text.new ≡ text.old ++ spaced (share_words share.now)) }
{
    let Some(share) = share else {
        return Ok(());
    };
    text.push(b" over")?;
    push_whole(text, share.over as u64)?;
    text.push(b" beyond")?;
    push_whole(text, share.tolerance.unsigned_abs() as u64)
}

fn push_worst(text: &mut Text, worst: i128, share: &Option<Share>) -> Result<(), Memory>
    requires worst { IsWorst worst }
    requires share { IfSome share.now IsShare }
    ensures { OnOk result (text.new ≡ text.old ++ line_text (worst_words worst share.now)) }
{
    text.push(b"worst")?;
    push_whole(text, worst.unsigned_abs() as u64)?;
    push_share(text, share)?;
    text.push(b"\n")
}

fn push_kind(text: &mut Text, kind: Kind) -> Result<(), Memory>
    ensures { OnOk result
        (text.new ≡ text.old ++ line_text (codes "kind" ∷ kind_text kind ∷ [])) }
{
    push_named(text, b"kind", kind_text(kind).as_bytes())
}

/// A line of an axis and its trimmed number.
fn push_trimmed(
    alloc: Global,
    text: &mut Text,
    axis: AxisName,
    value: i128,
    places: u32,
) -> Result<(), Memory>
    requires places { places ≤ 15 }
    requires low { negsuc 9999999999999999999 ≤ℤ value }
    requires high { value ≤ℤ pos limit }
    ensures { OnOk result
        (text.new ≡ text.old ++ line_text (axis_text axis ∷ trimmed_text places value ∷ [])) }
{
    let word = write_trimmed(alloc, value, places)?;
    push_named(text, axis_text(axis).as_bytes(), word.bytes())
}

/// What the projection is.
fn push_projection(alloc: Global, text: &mut Text, report: &Report) -> Result<(), Memory>
    requires { IsReport report.now }
    ensures { OnOk result (text.new ≡ text.old ++ lines_text (projection_words report.now)) }
{
    push_kind(text, report.kind)?;
    push_trimmed(alloc, text, AxisName::Lat, report.lat, 12)?;
    push_trimmed(alloc, text, AxisName::Lon, report.lon, 12)?;
    push_trimmed(alloc, text, AxisName::Azimuth, report.azimuth, 12)?;
    push_trimmed(alloc, text, AxisName::Scale, report.scale, 15)
}

fn push_place(text: &mut Text, report: &Report) -> Result<(), Memory>
    ensures { OnOk result (text.new ≡ text.old ++ line_text (place_words report.now)) }
{
    text.push(b"at")?;
    push_whole(text, report.row as u64)?;
    push_whole(text, report.col as u64)?;
    text.push(b"\n")
}

fn push_counts(text: &mut Text, report: &Report) -> Result<(), Memory>
    ensures { OnOk result (text.new ≡ text.old ++ line_text (counts_words report.now)) }
{
    text.push(b"cells")?;
    push_whole(text, report.cells as u64)?;
    text.push(b" missing")?;
    push_whole(text, report.missing as u64)?;
    text.push(b"\n")
}

/// What was found at the cells.
fn push_cells(alloc: Global, text: &mut Text, report: &Report) -> Result<(), Memory>
    requires { IsReport report.now }
    ensures { OnOk result (text.new ≡ text.old ++ lines_text (cell_words report.now)) }
{
    let ppm = write_decimal(alloc, report.ppm, 9)?;
    push_named(text, b"ppm", ppm.bytes())?;
    push_place(text, report)?;
    push_counts(text, report)?;
    text.push(b"nodes")?;
    push_whole(text, report.nodes as u64)?;
    text.push(b"\n")
}

fn push_entry(text: &mut Text, node: Node) -> Result<(), Memory>
    ensures { OnOk result (text.new ≡ text.old ++ line_text (entry_words node)) }
{
    match node {
        Node::Tree { family } => {
            text.push(b"tree")?;
            push_whole(text, family as u64)?;
        }
        Node::Split { axis, cut } => {
            text.push(b"s ")?;
            text.push(axis_text(axis).as_bytes())?;
            push_whole(text, cut as u64)?;
        }
        Node::Leaf { cell } => {
            text.push(b"c")?;
            push_whole(text, cell as u64)?;
        }
        Node::Unusable { cell } => {
            text.push(b"u")?;
            push_whole(text, cell as u64)?;
        }
    }
    text.push(b"\n")
}

fn push_forest(text: &mut Text, forest: &Forest) -> Result<(), Memory>
    ensures { OnOk result (text.new ≡ text.old ++ lines_text (forest_words forest.now)) }
{
    for i in 0..forest.len() {
        push_entry(text, forest.get(i))?;
    }
    text.push(b"end\n")
}

/// The text of a job, of version 2 where it has names.
pub fn write_job(alloc: Global, job: &Job) -> Result<Text, Memory>
    requires { IsJob job.now }
    ensures { IfOk result (λ text. text ≡ job_text job.now) }
{
    let mut text = Text::new(alloc);
    push_version(&mut text, &job.names)?;
    push_names(&mut text, &job.names)?;
    push_design(&mut text, &job.design)?;
    push_worst(&mut text, job.worst, &job.share)?;
    push_projection(alloc, &mut text, &job.report)?;
    push_cells(alloc, &mut text, &job.report)?;
    push_forest(&mut text, &job.forest)?;
    Ok(text)
}

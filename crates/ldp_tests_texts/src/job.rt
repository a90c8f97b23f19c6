use crate::piece;
use crate::show::{answer, named};
use anyhow::{Result, bail};
use ldp_design::Forest;
use ldp_job::{Job, JobFault, Names, Report, read_job, write_job};
use std::alloc::Global;

/// Calls the reader over a text.
pub fn ask(rt: &(impl Print + AllocGlobal), word: &str, text: &[u8]) -> Result<()> {
    match word {
        "values" => values(rt, text),
        "again" => again(rt, text),
        _ => count(rt, text),
    }
}

/// How many entries the forest of a text has, or the text's first fault.
fn count(rt: &(impl Print + AllocGlobal), text: &[u8]) -> Result<()> {
    match read_job(rt.alloc(), text) {
        Ok(job) => named(rt, "entries", &job.forest.len()),
        Err(fault) => answer(rt, &fault),
    }
}

/// The fault of the text with a piece in place of so many bytes: `changed PLACE COUNT PIECE`.
pub fn changed(rt: &(impl Print + AllocGlobal), rest: &str, text: &[u8]) -> Result<()> {
    let text = piece::changed(rt.alloc(), rest, text)?;
    count(rt, &text)
}

/// The faults of the text's beginnings, the text itself left out, each with the lengths that have
/// it.
pub fn beginnings(rt: &(impl Print + AllocGlobal), text: &[u8]) -> Result<()> {
    let mut first = 0;
    let mut known = fault_of(rt.alloc(), b"");
    for length in 1..text.len() {
        let fault = fault_of(rt.alloc(), text.split_at(length).0);
        if fault != known {
            named(rt, "from", &(first, known))?;
            first = length;
            known = fault;
        }
    }
    named(rt, "from", &(first, known))?;
    named(rt, "below", &text.len())
}

fn fault_of(alloc: Global, text: &[u8]) -> Option<JobFault> {
    read_job(alloc, text).err()
}

/// Whether the text of what is read is the text itself.
fn again(rt: &(impl Print + AllocGlobal), text: &[u8]) -> Result<()> {
    let Ok(job) = read_job(rt.alloc(), text) else {
        bail!("no job");
    };
    let written = write_job(rt.alloc(), &job)?;
    named(rt, "the same", &(written.bytes() == text))
}

/// What a job says of its files, its design and its forest.
fn values(rt: &(impl Print + AllocGlobal), text: &[u8]) -> Result<()> {
    match read_job(rt.alloc(), text) {
        Ok(job) => put_job(rt, &job),
        Err(_) => bail!("no job"),
    }
}

fn put_job(rt: &impl Print, job: &Job) -> Result<()> {
    named(rt, "worst", &job.worst)?;
    named(rt, "share", &job.share)?;
    put_report(rt, &job.report)?;
    put_forest(rt, &job.forest)?;
    put_names(rt, &job.names)
}

fn put_report(rt: &impl Print, report: &Report) -> Result<()> {
    named(rt, "kind", &report.kind)?;
    named(rt, "lat", &report.lat)?;
    named(rt, "scale", &report.scale)?;
    named(rt, "at", &(report.row, report.col))
}

fn put_forest(rt: &impl Print, forest: &Forest) -> Result<()> {
    for i in 0..forest.len() {
        answer(rt, &forest.get(i))?;
    }
    Ok(())
}

/// The first byte of the zone's hash, the last of the heights', and the second of the grids'.
fn put_names(rt: &impl Print, names: &Option<Names>) -> Result<()> {
    let bytes = names.map(|names| (names.zone[0], names.heights[31], names.grids[1]));
    named(rt, "names", &bytes)
}

use crate::show::{answer, named};
use anyhow::Result;
use ldp_design::Family;
use ldp_grids::read_grids;
use std::alloc::{AllocError, Global};

/// Calls the reader over a text, or over a text of one family with these keys.
pub fn ask(rt: &(impl Print + AllocGlobal), word: &str, text: &[u8]) -> Result<()> {
    match word {
        "family" => family(rt, text),
        "keys" => count(rt, &with_keys(rt.alloc(), text)?),
        _ => count(rt, text),
    }
}

/// How many families a text has, or its first fault.
fn count(rt: &(impl Print + AllocGlobal), text: &[u8]) -> Result<()> {
    match read_grids(rt.alloc(), text) {
        Ok(grids) => named(rt, "families", &grids.families()),
        Err(fault) => answer(rt, &fault),
    }
}

/// The family of a text that has one.
fn family(rt: &(impl Print + AllocGlobal), text: &[u8]) -> Result<()> {
    match only_family(rt.alloc(), text) {
        Some(family) => put_family(rt, &family),
        None => count(rt, text),
    }
}

fn only_family(alloc: Global, text: &[u8]) -> Option<Family> {
    let grids = read_grids(alloc, text).ok()?;
    (grids.families() == 1).then(|| *grids.family(1))
}

fn put_family(rt: &impl Print, family: &Family) -> Result<()> {
    answer(rt, &family.kind)?;
    named(rt, "lat", &family.lat)?;
    named(rt, "lon", &family.lon)?;
    named(rt, "azimuth", &family.azimuth)?;
    named(rt, "scale", &family.scale)?;
    named(rt, "origin", &family.origin)?;
    named(rt, "easting", &family.easting)?;
    named(rt, "northing", &family.northing)
}

/// The text of one family with these keys.
fn with_keys(alloc: Global, keys: &[u8]) -> Result<Vec<u8>, AllocError> {
    let mut text = Vec::from_slice(alloc, b"family = [{ ")?;
    text.extend_from_slice(keys)?;
    text.extend_from_slice(b" }]\n")?;
    Ok(text)
}

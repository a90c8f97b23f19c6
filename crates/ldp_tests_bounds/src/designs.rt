ghost use Rattle.std.specs.Prelude.{IfOk};
ghost use Rattle.ldp_design.specs.Boxes.{LiesIn};

use crate::ask::grids_of;
use crate::halves::{all_of, halved};
use crate::place::Place;
use anyhow::{Context, Result, ensure};
use ldp_design::{
    AxisName, Design, DesignBox, Grids, admits, cut_for, inputs_at, inputs_of, order, split,
};

/// Prints what is asked of these families.
pub fn ask(rt: &(impl Print + AllocGlobal), designs: &str, word: &str, rest: &str) -> Result<()> {
    let grids = grids_of(rt.alloc(), designs)?;
    match word {
        "parts" => put_parts(rt, &grids, &box_of(&grids, rest)?),
        "inputs" => put_inputs(rt, &grids, &box_of(&grids, rest)?),
        "at" => put_inputs_at(rt, &grids, rest),
        "longitude" => put_longitude(rt, &grids, rest),
        _ => put_admitted(rt, &grids, rest),
    }
}

fn box_of(grids: &Grids, words: &str) -> Result<DesignBox>
    ensures { IfOk result (LiesIn grids.now.families) }
{
    let place = Place::of(words)?;
    let all = all_of(grids, place.family)?;
    Ok(halved(grids, &all, place.high, place.halvings))
}

/// Where a box is cut, and the spans of both its parts on the axis that is cut.
fn put_parts(rt: &impl Print, grids: &Grids, b: &DesignBox) -> Result<()>
    requires { LiesIn grids.now.families b.now }
{
    let Some((axis, at)) = cut_for(grids, b) else {
        println!(rt; "none")?;
        return Ok(());
    };
    let Some((low, high)) = split(grids, b) else {
        println!(rt; "no parts")?;
        return Ok(());
    };
    let (low, high) = (low.span(axis), high.span(axis));
    println!(rt;
        "{axis:?} after {at}: {} to {}, {} to {}",
        low.lo, low.hi, high.lo, high.hi
    )?;
    Ok(())
}

/// The inputs at both ends of a box: latitude, longitude and azimuth in radians, the scale factor.
fn put_inputs(rt: &impl Print, grids: &Grids, b: &DesignBox) -> Result<()>
    requires { LiesIn grids.now.families b.now }
{
    let (low, high) = inputs_of(grids, b);
    println!(rt; "low {} {} {} {}", low.lat, low.lon, low.azimuth, low.scale)?;
    println!(rt;
        "high {} {} {} {}",
        high.lat, high.lon, high.azimuth, high.scale
    )?;
    Ok(())
}

/// The inputs of a design.
fn put_inputs_at(rt: &impl Print, grids: &Grids, words: &str) -> Result<()> {
    let design = design_of(words)?;
    ensure!(admits(grids, &design), "no design");
    let at = inputs_at(grids, &design);
    println!(rt; "{} {} {} {}", at.lat, at.lon, at.azimuth, at.scale)?;
    Ok(())
}

/// The longitude of a family with an index: `longitude FAMILY INDEX`.
fn put_longitude(rt: &impl Print, grids: &Grids, words: &str) -> Result<()> {
    let (family, index) = words.split_once(' ').context("an index")?;
    let family = family.parse::<u16>()?;
    let index = index.parse::<u32>()?;
    ensure!(1 <= family, "families are numbered from 1");
    ensure!(family <= grids.families(), "no such family: {family}");
    let family = grids.family(family);
    ensure!(index < family.lon.count, "no such longitude: {index}");
    println!(rt; "{}", family.value(AxisName::Lon, index))?;
    Ok(())
}

/// Whether the families have a design.
fn put_admitted(rt: &impl Print, grids: &Grids, words: &str) -> Result<()> {
    let answer = if admits(grids, &design_of(words)?) {
        "yes"
    } else {
        "no"
    };
    println!(rt; "{answer}")?;
    Ok(())
}

/// Prints how two designs are ordered, how they are the other way round, and the first and itself:
/// `order DESIGN, DESIGN`.
pub fn print_order(rt: &impl Print, words: &str) -> Result<()> {
    let (first, second) = words.split_once(", ").context("two designs")?;
    let (first, second) = (design_of(first)?, design_of(second)?);
    println!(rt;
        "{:?}, {:?}, {:?}",
        order(&first, &second),
        order(&second, &first),
        order(&first, &first)
    )?;
    Ok(())
}

/// `FAMILY LAT LON AZIMUTH SCALE`: the number of a family, from 1, and an index on each axis.
fn design_of(words: &str) -> Result<Design> {
    let (family, rest) = words.split_once(' ').context("a family")?;
    let (lat, rest) = rest.split_once(' ').context("a latitude")?;
    let (lon, rest) = rest.split_once(' ').context("a longitude")?;
    let (azimuth, scale) = rest.split_once(' ').context("an azimuth")?;
    Ok(Design {
        family: family.parse()?,
        lat: lat.parse()?,
        lon: lon.parse()?,
        azimuth: azimuth.parse()?,
        scale: scale.parse()?,
    })
}

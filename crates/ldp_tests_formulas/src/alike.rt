ghost use Rattle.ldp_distortion.specs.Inputs.{AreNumbers};

use crate::area::Area;
use crate::design::{angle, design, inputs};
use crate::in_ranges::distortion_in_ranges;
use crate::words::{halves, numbers};
use anyhow::{Result, ensure};
use ldp_distortion::{Inputs, Worst};
use ldp_num::{Bench, Fix, MOST_STEPS, eta};
use std::alloc::Global;

/// Says whether the worst over one cell is the distortion there, and whether that is both ends of
/// what the lists give over ranges of equal ends.
pub fn alike(rt: &(impl Print + AllocGlobal), area: &Area, rest: &str) -> Result<()> {
    let (text, place) = halves(rest)?;
    let design = design(text)?;
    let cell = cell_at(place)?;
    let (value, worst) = value_and_worst(rt.alloc(), area, inputs(design))?;
    let (low, high) = distortion_in_ranges(rt.alloc(), area.prepared.lists(), design, cell)?;
    say_whether(rt, "worst", worst == worst_of(value))?;
    say_whether(rt, "low", low == value)?;
    say_whether(rt, "high", high == value)
}

fn say_whether(rt: &impl Print, what: &str, alike: bool) -> Result<()> {
    let word = if alike { "alike" } else { "differs" };
    print!(rt; " {what} {word}")?;
    Ok(())
}

/// The inputs of a cell list from latitude, longitude and millimetres of height.
fn cell_at(text: &str) -> Result<[Fix; 3]> {
    let [latitude, longitude, height] = numbers::<3>(text)?;
    let millimetres = i32::try_from(height.n)?;
    Ok([
        angle(latitude)?,
        angle(longitude)?,
        Fix {
            n: eta(millimetres),
        },
    ])
}

/// The distortion at the one cell, and then the worst on the same bench.
fn value_and_worst(alloc: Global, area: &Area, at: Inputs) -> Result<(Option<i128>, Worst)>
    requires { AreNumbers at }
{
    ensure!(area.count == 1, "one cell is wanted");
    let _lists = area.prepared.lists();
    let mut bench: Bench<Fix> = Bench::with_room(alloc, MOST_STEPS)?;
    let value = area.prepared.delta(&mut bench, at, 0);
    let worst = area.prepared.worst(&mut bench, at);
    Ok((value, worst))
}

/// The worst over one cell that has this distortion, which is not below 0.
fn worst_of(distortion: Option<i128>) -> Worst {
    match distortion {
        Some(value) => Worst::Is { value, cell: 0 },
        None => Worst::Unusable { cell: 0 },
    }
}

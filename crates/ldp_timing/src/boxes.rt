ghost use Rattle.std.specs.Prelude.{◌≡◌, ◌<◌, length};
ghost use Rattle.ldp_design.specs.Boxes.{LiesIn};
ghost use Rattle.ldp_design.specs.Families.{IsValid};

use ldp_bound::{Bound, Bounds, Plain};
use ldp_cells::{Cells, zone_cells};
use ldp_design::{Axis, DesignBox, Family, Grids, Kind, split, whole};
use ldp_heights::read_heights;
use ldp_num::ONE;
use ldp_series::Memory;
use ldp_zone::read_zone;
use std::alloc::Global;

/// The head of a grid of 28 columns and 24 rows, 1/48 of a degree each.
const GRID_HEAD: &[u8] =
    b"ncols 28 nrows 24 xllcorner -105.5 yllcorner 39.5 cellsize 0.020833333333333332";

/// A zone of all cells of the grid, 672 of them.
const ZONE: &[u8] = b"POLYGON ((-105.5 39.5, -104.9 39.5, -104.9 40, -105.5 40, -105.5 39.5))";

/// A tenth of a degree, in 10^-12 degrees.
const TENTH: i128 = 100_000_000_000;

const ONE_VALUE: Axis = Axis {
    from: 0,
    step: 1,
    count: 1,
};

/// Scale factors from 1 to 1.001.
const SCALES: Axis = Axis {
    from: ONE,
    step: 5_000_000_000,
    count: 201,
};

/// Transverse Mercator designs on 21 meridians.
fn meridians() -> Family
    ensures { IsValid result }
{
    Family {
        kind: Kind::Tm,
        lat: Axis {
            from: 39_750_000_000_000,
            step: 1,
            count: 1,
        },
        lon: Axis {
            from: -105_700_000_000_000,
            step: 50_000_000_000,
            count: 21,
        },
        azimuth: ONE_VALUE,
        scale: SCALES,
        origin: 0,
        easting: 0,
        northing: 0,
    }
}

/// Lambert designs on 21 parallels.
fn parallels() -> Family
    ensures { IsValid result }
{
    Family {
        kind: Kind::Lambert,
        lat: Axis {
            from: 39_250_000_000_000,
            step: 50_000_000_000,
            count: 21,
        },
        lon: Axis {
            from: -105_200_000_000_000,
            step: 1,
            count: 1,
        },
        azimuth: ONE_VALUE,
        scale: SCALES,
        origin: 0,
        easting: 0,
        northing: 0,
    }
}

/// The grid's text: at row r and column c the height is 900 + (37r + 53c) mod 1501.
fn grid_text(alloc: Global) -> Result<Vec<u8>, Memory> {
    let mut text = GRID_HEAD.to_vec(alloc)?;
    for row in 0..24u32 {
        for column in 0..28u32 {
            let height = format!(in alloc; " {}", 900 + (37 * row + 53 * column) % 1501)?;
            text.extend_from_slice(height.as_bytes())?;
        }
    }
    Ok(text)
}

/// The cells of the zone, if its text and that of the grid are read.
fn cells(alloc: Global) -> Result<Option<Cells>, Memory> {
    let text = grid_text(alloc)?;
    let (Ok(heights), Ok(zone)) = (read_heights(alloc, &text), read_zone(alloc, ZONE)) else {
        return Ok(None);
    };
    Ok(zone_cells(alloc, &zone, &heights).ok())
}

/// Bounds so many boxes of a family over 672 cells: the whole, then parts of parts of it down to a
/// design, and again from the whole. The sum of the bounds.
pub fn bounds(alloc: Global, kind: Kind, runs: u32) -> Result<i128, Memory> {
    let mut grids = Grids::new(alloc);
    let family = if kind == Kind::Tm {
        meridians()
    } else {
        parallels()
    };
    grids.push(family)?;
    let Some(cells) = cells(alloc)? else {
        return Ok(0);
    };
    if cells.len() == 0 {
        return Ok(0);
    }
    bounds_over(alloc, &grids, &cells, runs)
}

fn bounds_over(alloc: Global, grids: &Grids, cells: &Cells, runs: u32) -> Result<i128, Memory>
    requires cells { 0 < length cells.now.cells }
    requires families { 0 < length grids.now.families }
{
    let mut plain = Plain::new(alloc, grids, cells, None)?;
    Ok(sum_of_bounds(&mut plain, grids, runs))
}

fn sum_of_bounds<B: Bounds>(bounds: &mut B, grids: &Grids, runs: u32) -> i128
    requires families { (B.problem bounds.old).families ≡ grids.now.families }
    requires some { 0 < length grids.now.families }
{
    let mut b = whole(grids, 1);
    let mut sum = 0i128;
    for round in 0..runs {
        sum = sum.wrapping_add(bound_of(bounds, grids, &b));
        b = next_box(grids, &b, round % 2 == 1);
    }
    sum
}

// The bound of a box, 0 where it has one design and that is not usable.
fn bound_of<B: Bounds>(bounds: &mut B, grids: &Grids, b: &DesignBox) -> i128
    requires families { (B.problem bounds.old).families ≡ grids.now.families }
    requires lies { LiesIn grids.now.families b.now }
    ensures { (B.problem bounds.new).families ≡ grids.now.families }
{
    match bounds.bound(b) {
        Bound::Low { value, .. } => value,
        Bound::Unusable { .. } => 0,
    }
}

// A part of a box, or the whole of the first family where it has one design.
fn next_box(grids: &Grids, b: &DesignBox, high: bool) -> DesignBox
    requires lies { LiesIn grids.now.families b.now }
    requires some { 0 < length grids.now.families }
    ensures { LiesIn grids.now.families result }
{
    match split(grids, b) {
        Some((low, _)) if !high => low,
        Some((_, high)) => high,
        None => whole(grids, 1),
    }
}

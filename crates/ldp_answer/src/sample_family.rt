ghost use Rattle.std.specs.Prelude.{◌≡◌, ◌/◌, ◌<◌, pos, IfOk};
ghost use Rattle.ldp_design.specs.Families.{IsValid, single_axis};
ghost use Rattle.ldp_design.specs.Grids.{plain_grids};
ghost use Rattle.ldp_answer.specs.SampleInputs.{IsSampleNumber, sample_family, sample_families};

use ldp_design::{Axis, Family, Grids, Kind};
use ldp_num::ONE;
use std::alloc::{AllocError, Global};

/// The designs of a sample.
pub fn sample_grids(alloc: Global, number: u32) -> Result<Grids, AllocError>
    requires { IsSampleNumber number }
    ensures { IfOk result (λ grids. grids ≡ plain_grids (sample_families number)) }
{
    let mut grids = Grids::new(alloc);
    grids.push(sample_family(number))?;
    Ok(grids)
}

/// Transverse Mercator designs: so many central meridians, and so many scale factors.
fn sample_family(number: u32) -> Family
    requires { IsSampleNumber number }
    ensures value { result ≡ sample_family number }
    ensures valid { IsValid result }
{
    Family {
        kind: Kind::Tm,
        lat: single(40_000_000_000_000),
        lon: Axis {
            from: -107_000_000_000_000,
            step: step_of(2_000_000_000_000, number),
            count: number,
        },
        azimuth: single(0),
        scale: Axis {
            from: ONE,
            step: step_of(400_000_000_000, number),
            count: number,
        },
        origin: 0,
        easting: 0,
        northing: 0,
    }
}

fn single(value: i128) -> Axis
    ensures { result ≡ single_axis value }
{
    Axis {
        from: value,
        step: 1,
        count: 1,
    }
}

/// A part of a range that is cut into so many parts.
fn step_of(range: u64, number: u32) -> i128
    requires { 0 < number }
    ensures { result ≡ pos (range / number) }
{
    i128::from(range / u64::from(number))
}

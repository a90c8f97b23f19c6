ghost use Rattle.std.specs.Prelude.{◌≡◌, ◌*◌, ◌^◌, ◌≤ℤ◌, pos, neg_ℤ};
ghost use Rattle.ldp_num.specs.Number.{IsNumber};
ghost use Rattle.ldp_num.specs.Units.{radians_of, height_number};

use crate::exact::ONE;

/// Pi in units of 10^-15, rounded down.
const PI: i128 = 3_141_592_653_589_793;

/// An angle of 10^-12 degrees in radians, in units of 10^-15, rounded down.
pub fn radians(angle: i128) -> i128
    requires low { neg_ℤ (pos (360 * 10 ^ 12)) ≤ℤ angle }
    requires high { angle ≤ℤ pos (360 * 10 ^ 12) }
    ensures value { result ≡ radians_of angle }
    ensures number { IsNumber result }
{
    (angle * PI).div_euclid(180_000_000_000_000)
}

/// A height of millimetres over the semi-major axis of GRS 80, in units of 10^-15, rounded down.
pub fn eta(mm: i32) -> i128
    ensures value { result ≡ height_number mm }
    ensures number { IsNumber result }
{
    (i128::from(mm) * ONE).div_euclid(6_378_137_000)
}

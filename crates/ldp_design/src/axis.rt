ghost use Rattle.std.specs.Prelude.{◌≡◌, ◌<◌};
ghost use Rattle.ldp_num.specs.Number.{IsNumber};
ghost use Rattle.ldp_design.specs.Families.{value_at};
ghost use Rattle.ldp_design.specs.Inputs.{angle_at, IsAngleAxis, IsNumberAxis};

use ldp_num::radians;

/// The four axes of a family, in the order in which ties between them are settled.
#[derive(Clone, Copy, Debug, PartialEq, Eq)]
pub enum AxisName {
    Lat,
    Lon,
    /// The azimuth of the central line, or the second standard parallel.
    Azimuth,
    Scale,
}

/// The values that designs of a family may take on an axis: `from`, `from + step`, and so on,
/// `count` of them.
///
/// An angle is in 10^-12 degrees, a scale factor in units of 10^-15.
#[derive(Clone, Copy, Debug, PartialEq, Eq)]
pub struct Axis {
    pub from: i128,
    pub step: i128,
    pub count: u32,
}

/// The value with this index.
pub(crate) fn value_at(axis: &Axis, i: u32) -> i128
    requires axis { IsNumberAxis axis.now }
    requires index { i < axis.now.count }
    ensures value { result ≡ value_at axis.now i }
    ensures number { IsNumber result }
{
    axis.from + i128::from(i) * axis.step
}

/// The angle with this index, in radians.
pub(crate) fn angle_at(axis: &Axis, i: u32) -> i128
    requires axis { IsAngleAxis axis.now }
    requires index { i < axis.now.count }
    ensures value { result ≡ angle_at axis.now i }
    ensures number { IsNumber result }
{
    radians(value_at(axis, i))
}

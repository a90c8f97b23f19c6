ghost use Rattle.std.specs.Prelude.{◌≡◌, ◌<◌, ◌*◌, ◌≤ℤ◌, ◌-ℤ◌, neg_ℤ, pos};
ghost use Rattle.ldp_num.specs.Number.{limit};
ghost use Rattle.ldp_design.specs.Families.{IsValid, value_at};
ghost use Rattle.ldp_design.specs.Boxes.{IsBoxOf};
ghost use Rattle.ldp_design.specs.Inputs.{angle_at, IsAngleAxis, IsNumberAxis};
ghost use Rattle.ldp_design.specs.Measures.{measure, wider, widest};

use crate::axis::{Axis, AxisName, angle_at, value_at};
use crate::design_box::{DesignBox, Span};
use crate::family::Family;

/// The axis of greatest measure in a box; of equal ones the first.
pub fn widest(family: &Family, b: &DesignBox) -> AxisName
    requires valid { IsValid family.now }
    requires within { IsBoxOf family.now b.now }
    ensures { result ≡ widest family.now b.now }
{
    let mut axis = AxisName::Lat;
    axis = wider(family, b, axis, AxisName::Lon);
    axis = wider(family, b, axis, AxisName::Azimuth);
    wider(family, b, axis, AxisName::Scale)
}

fn wider(family: &Family, b: &DesignBox, first: AxisName, second: AxisName) -> AxisName
    requires valid { IsValid family.now }
    requires within { IsBoxOf family.now b.now }
    ensures { result ≡ wider family.now b.now first second }
{
    if measure(family, b, first) < measure(family, b, second) {
        second
    } else {
        first
    }
}

/// The width of an angle in radians, or 64 times the width of the scale factor.
#[tactic(auto, unfolding(crate::specs::Measures::measure))]
fn measure(family: &Family, b: &DesignBox, axis: AxisName) -> i128
    requires valid { IsValid family.now }
    requires within { IsBoxOf family.now b.now }
    ensures { result ≡ measure family.now b.now axis }
{
    match axis {
        AxisName::Lat => angle_width(&family.lat, b.lat),
        AxisName::Lon => angle_width(&family.lon, b.lon),
        AxisName::Azimuth => angle_width(&family.azimuth, b.azimuth),
        AxisName::Scale => 64 * value_width(&family.scale, b.scale),
    }
}

fn angle_width(axis: &Axis, span: Span) -> i128
    requires axis { IsAngleAxis axis.now }
    requires low { span.lo < axis.now.count }
    requires high { span.hi < axis.now.count }
    ensures { result ≡ angle_at axis.now span.hi -ℤ angle_at axis.now span.lo }
{
    angle_at(axis, span.hi) - angle_at(axis, span.lo)
}

fn value_width(axis: &Axis, span: Span) -> i128
    requires axis { IsNumberAxis axis.now }
    requires low { span.lo < axis.now.count }
    requires high { span.hi < axis.now.count }
    ensures value { result ≡ value_at axis.now span.hi -ℤ value_at axis.now span.lo }
    ensures low { neg_ℤ (pos (2 * limit)) ≤ℤ result }
    ensures high { result ≤ℤ pos (2 * limit) }
{
    value_at(axis, span.hi) - value_at(axis, span.lo)
}

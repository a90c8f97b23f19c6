ghost use Rattle.std.specs.Prelude.{◌≡◌, ◌↔◌, None, IfSome};
ghost use Rattle.ldp_design.specs.Families.{IsValid};
ghost use Rattle.ldp_design.specs.Boxes.{IsBoxOf, IsSingle, LiesIn};
ghost use Rattle.ldp_design.specs.Splits.{IsCut, cut_for, family_cut, split_of};
ghost use Rattle.ldp_design.specs.Laws.{AreParts};

use crate::axis::AxisName;
use crate::design_box::{DesignBox, cut, is_single};
use crate::family::Family;
use crate::grids::Grids;
use crate::measure::widest;

/// Where a box is cut: its axis of greatest measure, and the last index of the low part.
pub fn cut_for(grids: &Grids, b: &DesignBox) -> Option<(AxisName, u32)>
    requires { LiesIn grids.now.families b.now }
    ensures value { result ≡ cut_for grids.now.families b.now }
    ensures single { (result ≡ None) ↔ IsSingle b.now }
    ensures within { IfSome result (λ c. IsCut c.0 c.1 b.now) }
{
    family_cut(grids.family(b.family), b)
}

/// The two parts of a box.
pub fn split(grids: &Grids, b: &DesignBox) -> Option<(DesignBox, DesignBox)>
    requires { LiesIn grids.now.families b.now }
    ensures value { result ≡ split_of grids.now.families b.now }
    ensures single { (result ≡ None) ↔ IsSingle b.now }
    ensures parts { IfSome result (λ parts. AreParts grids.now.families b.now parts.0 parts.1) }
{
    let (axis, at) = cut_for(grids, b)?;
    Some(cut(b, axis, at))
}

fn family_cut(family: &Family, b: &DesignBox) -> Option<(AxisName, u32)>
    requires valid { IsValid family.now }
    requires within { IsBoxOf family.now b.now }
    ensures { result ≡ family_cut family.now b.now }
{
    if is_single(b) {
        return None;
    }
    let axis = widest(family, b);
    let span = b.span(axis);
    Some((axis, span.lo + (span.hi - span.lo) / 2))
}

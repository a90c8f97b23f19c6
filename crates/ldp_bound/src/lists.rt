ghost use Rattle.std.specs.Prelude.{◌≡◌, IfOk};
ghost use Rattle.ldp_distortion.specs.Prepared.{FitTogether};
ghost use Rattle.ldp_bound.specs.Kinds.{lists_of, is_oblique, is_south, family_lists};

use crate::Memory;
use ldp_design::{Family, Kind};
use ldp_series::Lists;
use std::alloc::Global;

/// The lists of a kind, for centres south of the equator or for those north of it.
#[tactic(auto, unfolding(crate::specs::Kinds::lists_of))]
pub(crate) fn lists_of(alloc: Global, kind: Kind, south: bool) -> Result<Lists, Memory>
    ensures exact { IfOk result (λ lists. lists ≡ lists_of kind south) }
    ensures fit { IfOk result FitTogether }
{
    match kind {
        Kind::Tm => ldp_tm::lists(alloc),
        Kind::Lambert => ldp_lambert::lists(alloc),
        Kind::Lambert2 => ldp_lambert2::lists(alloc),
        Kind::Hotine => ldp_hotine::lists(alloc, south),
    }
}

fn is_oblique(kind: Kind) -> bool
    ensures { result ≡ is_oblique kind }
{
    match kind {
        Kind::Hotine => true,
        Kind::Tm | Kind::Lambert | Kind::Lambert2 => false,
    }
}

/// Whether a family is an oblique one whose first latitude is south of the equator.
pub(crate) fn is_south(family: &Family) -> bool
    ensures { result ≡ is_south family.now }
{
    is_oblique(family.kind) && family.lat.from < 0
}

/// The lists of the kind of a family.
pub fn family_lists(alloc: Global, family: &Family) -> Result<Lists, Memory>
    ensures exact { IfOk result (λ lists. lists ≡ family_lists family.now) }
    ensures fit { IfOk result FitTogether }
{
    lists_of(alloc, family.kind, is_south(family))
}

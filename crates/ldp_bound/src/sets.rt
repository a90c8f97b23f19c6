ghost use Rattle.std.specs.Prelude.{◌≡◌, ◌<◌, length, IfOk};
ghost use Rattle.std.specs.List.{list_any};
ghost use Rattle.ldp_bound.specs.Kept.{is_same, has_lists, set_of};

use crate::Memory;
use crate::kind_cells::KindCells;
use crate::lists::is_south;
use ldp_cells::Cells;
use ldp_design::{Family, Grids, Kind};
use std::alloc::Global;

/// The cells prepared for the lists of a kind and a hemisphere, where some family has them.
pub(crate) fn prepared_for(
    alloc: Global,
    grids: &Grids,
    cells: &Cells,
    kind: Kind,
    south: bool,
) -> Result<Option<KindCells>, Memory>
    requires { 0 < length cells.now.cells }
    ensures { IfOk result (λ set. set ≡ set_of grids.now.families cells.now.cells kind south) }
{
    if !some_has(grids, kind, south) {
        return Ok(None);
    }
    let set = KindCells::new(alloc, kind, south, cells)?;
    Ok(Some(set))
}

fn some_has(grids: &Grids, kind: Kind, south: bool) -> bool
    ensures { result ≡ list_any (has_lists kind south) grids.now.families }
{
    for index in 0..grids.families() {
        if has_lists(kind, south, grids.family(index + 1)) {
            return true;
        }
    }
    false
}

fn has_lists(kind: Kind, south: bool, family: &Family) -> bool
    ensures { result ≡ has_lists kind south family.now }
{
    is_same(kind, south, family.kind, is_south(family))
}

pub(crate) fn is_same(kind: Kind, south: bool, other: Kind, other_south: bool) -> bool
    ensures { result ≡ is_same kind south other other_south }
{
    match (kind, other) {
        (Kind::Tm, Kind::Tm) => true,
        (Kind::Lambert, Kind::Lambert) => true,
        (Kind::Lambert2, Kind::Lambert2) => true,
        (Kind::Hotine, Kind::Hotine) => south == other_south,
        _ => false,
    }
}

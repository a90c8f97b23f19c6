ghost use Rattle.std.specs.Prelude.{◌≡◌, ◌<◌, length, IfOk, option_map};

use crate::Memory;
use crate::kind_cells::KindCells;
use crate::lists::is_south;
use crate::sets::prepared_for;
use ldp_cells::Cells;
use ldp_design::{Family, Grids, Kind};
use std::alloc::Global;

/// The cells prepared for the lists of each kind that some family has, and cut into stretches. What
/// is prepared once serves every family of the kind, in the oblique one by hemisphere.
#[derive(Drop)]
pub struct PreparedKinds {
    tm: Option<KindCells>,
    lambert: Option<KindCells>,
    lambert2: Option<KindCells>,
    hotine_north: Option<KindCells>,
    hotine_south: Option<KindCells>,
}

impl PreparedKinds {
    ghost use Rattle.ldp_bound.specs.Kept.{kinds_of, set_at, family_set};

    /// Prepares the cells once for each kind.
    pub fn new(alloc: Global, grids: &Grids, cells: &Cells) -> Result<PreparedKinds, Memory>
        requires { 0 < length cells.now.cells }
        ensures { IfOk result (λ kinds. kinds ≡ kinds_of grids.now.families cells.now.cells) }
    {
        Ok(PreparedKinds {
            tm: prepared_for(alloc, grids, cells, Kind::Tm, false)?,
            lambert: prepared_for(alloc, grids, cells, Kind::Lambert, false)?,
            lambert2: prepared_for(alloc, grids, cells, Kind::Lambert2, false)?,
            hotine_north: prepared_for(alloc, grids, cells, Kind::Hotine, false)?,
            hotine_south: prepared_for(alloc, grids, cells, Kind::Hotine, true)?,
        })
    }

    /// The cells prepared for the lists of a family.
    pub fn of(&self, family: &Family) -> Option<&KindCells>
        ensures { option_map (λ p. p.now) result ≡ family_set self.now family.now }
    {
        match family.kind {
            Kind::Tm => self.tm.as_ref(),
            Kind::Lambert => self.lambert.as_ref(),
            Kind::Lambert2 => self.lambert2.as_ref(),
            Kind::Hotine => self.oblique(is_south(family)),
        }
    }

    fn oblique(&self, south: bool) -> Option<&KindCells>
        ensures { option_map (λ p. p.now) result ≡ set_at self.now Kind.Hotine south }
    {
        if south {
            self.hotine_south.as_ref()
        } else {
            self.hotine_north.as_ref()
        }
    }
}

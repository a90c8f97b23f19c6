ghost use Rattle.std.specs.Prelude.{◌≡◌, ◌<◌, length, IfOk};
ghost use Rattle.ldp_distortion.specs.Prepared.{prepared};
ghost use Rattle.ldp_bound.specs.Kinds.{lists_of};

use crate::Memory;
use crate::lists::lists_of;
use ldp_cells::Cells;
use ldp_design::Kind;
use ldp_distortion::Prepared;
use ldp_stretch::Stretched;
use std::alloc::Global;
use std::marker::Model;

/// The cells prepared for the lists of a kind and a hemisphere, cut into stretches. Seen as the
/// prepared cells.
#[derive(Drop)]
pub struct KindCells {
    kind: Kind,
    south: bool,
    stretched: Stretched,
}

impl Model for KindCells {
    ghost use Rattle.ldp_distortion.specs.Prepared.{PreparedCells};
    ghost use Rattle.std.specs.Prelude.{◌≡◌};
    ghost use Rattle.ldp_bound.specs.Kinds.{lists_of};

    ghost Value = { PreparedCells };

    ghost view = { λ cells. cells.stretched };

    ghost invariant = { λ cells. cells.stretched.lists ≡ lists_of cells.kind cells.south };
}

impl KindCells {
    /// Prepares the cells.
    pub fn new(alloc: Global, kind: Kind, south: bool, cells: &Cells) -> Result<KindCells, Memory>
        requires { 0 < length cells.now.cells }
        ensures { IfOk result (λ made. made ≡ prepared (lists_of kind south) cells.now.cells) }
    {
        let lists = lists_of(alloc, kind, south)?;
        let prepared = Prepared::new(alloc, lists, cells)?;
        let stretched = Stretched::new(alloc, prepared, cells.len())?;
        Ok(KindCells {
            kind,
            south,
            stretched,
        })
    }

    /// The kind, and whether its lists are those for centres south of the equator.
    pub fn kind(&self) -> (Kind, bool)
        ensures { self.now.lists ≡ lists_of result.0 result.1 }
    {
        (self.kind, self.south)
    }

    /// The prepared cells alone.
    pub fn prepared(&self) -> &Prepared
        ensures { result.now ≡ self.now }
    {
        self.stretched.prepared()
    }

    /// The prepared cells with the stretches that they are cut into.
    pub fn stretched(&self) -> &Stretched
        ensures { result.now ≡ self.now }
    {
        &self.stretched
    }
}

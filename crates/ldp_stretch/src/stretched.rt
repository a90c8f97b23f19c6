ghost use Rattle.std.specs.Prelude.{◌≡◌, ◌<◌, length, IfOk};

use crate::Memory;
use crate::stretches::Stretches;
use ldp_distortion::Prepared;
use std::alloc::Global;
use std::marker::Model;

/// Prepared cells with the stretches into which they are cut, seen as the prepared cells.
#[derive(Drop)]
pub struct Stretched {
    prepared: Prepared,
    stretches: Stretches,
}

impl Model for Stretched {
    ghost use Rattle.ldp_distortion.specs.Prepared.{PreparedCells};
    ghost use Rattle.ldp_stretch.specs.Hulls.{AreStretches};

    ghost Value = { PreparedCells };

    ghost view = { λ s. s.prepared };

    ghost invariant = { λ s. AreStretches s.prepared s.stretches };
}

impl Stretched {
    ghost use Rattle.ldp_stretch.specs.Hulls.{AreStretches};

    /// Cuts so many prepared cells. They are spent also where memory is wanting.
    pub fn new(alloc: Global, prepared: Prepared, count: u32) -> Result<Stretched, Memory>
        requires some { 0 < count }
        requires count { length prepared.results ≡ count }
        ensures { IfOk result (λ stretched. stretched ≡ prepared) }
    {
        let stretches = Stretches::new(alloc, &prepared, count)?;
        Ok(Stretched {
            prepared,
            stretches,
        })
    }

    /// The prepared cells.
    pub fn prepared(&self) -> &Prepared
        ensures { result.now ≡ self.now }
    {
        &self.prepared
    }

    /// The stretches into which they are cut, with their hulls.
    pub(crate) fn stretches(&self) -> &Stretches
        ensures { AreStretches self.now result.now }
    {
        &self.stretches
    }
}

ghost use Rattle.std.specs.Prelude.{◌≡◌, length};

use crate::kind::{Kind, lists_of};
use anyhow::{Context, Result};
use ldp_cells::area_cells;
use ldp_distortion::Prepared;
use ldp_heights::read_heights;
use std::alloc::Global;

/// The cells of a grid, prepared for a projection, and how many they are.
#[derive(Drop)]
pub struct Area {
    pub prepared: Prepared,
    pub count: u32,
    pub ghost counted: { count ≡ length prepared.results },
}

impl Area {
    pub fn new(alloc: Global, kind: Kind, grid: &[u8]) -> Result<Area> {
        let heights = read_heights(alloc, grid).ok().context("a grid is wanted")?;
        let cells = area_cells(alloc, &heights)
            .ok()
            .context("cells are wanted")?;
        let prepared = Prepared::new(alloc, lists_of(alloc, kind)?, &cells)?;
        Ok(Area {
            prepared,
            count: cells.len(),
        })
    }
}

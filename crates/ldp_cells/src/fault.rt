ghost use Rattle.std.specs.Prelude.{◌≡◌};
ghost use Rattle.ldp_cells.specs.declared.fault.CellsFault.TheVariants.{Memory};

use std::alloc::AllocError;

/// Why a zone gives no cells.
#[derive(Clone, Copy, Debug, PartialEq, Eq)]
pub enum CellsFault {
    /// More than 200,000 cells, with their number.
    TooManyCells(u32),
    Memory,
}

impl From<AllocError> for CellsFault {
    ghost from_gives = { λ _ fault. fault ≡ Memory };

    fn from(_fault: AllocError) -> CellsFault {
        CellsFault::Memory
    }
}

ghost use Rattle.std.specs.Prelude.{◌≡◌};
ghost use Rattle.ldp_search.specs.declared.fault.SearchFault.TheVariants.{Memory};

use std::alloc::AllocError;

/// Why a search has no design.
#[derive(Clone, Copy, Debug, PartialEq, Eq)]
pub enum SearchFault {
    /// The canonical forest has more nodes than may be evaluated; with the number that were.
    Budget { evaluated: u32 },
    /// No design is usable; with the number of nodes of the canonical forest.
    NoUsable { nodes: u32 },
    Memory,
}

impl From<AllocError> for SearchFault {
    ghost from_gives = { λ _ fault. fault ≡ Memory };

    fn from(_fault: AllocError) -> SearchFault {
        SearchFault::Memory
    }
}

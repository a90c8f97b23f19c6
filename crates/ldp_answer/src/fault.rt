use ldp_cells::CellsFault;
use ldp_message::Refusal;
use ldp_search::SearchFault;
use std::alloc::AllocError;

/// Why work over values that were read has no answer.
#[derive(Clone, Copy, Debug, PartialEq, Eq)]
pub enum WorkFault {
    Refused(Refusal),
    Memory,
}

impl From<AllocError> for WorkFault {
    ghost use Rattle.std.specs.Prelude.{◌≡◌};
    ghost use Rattle.ldp_answer.specs.declared.fault.WorkFault.TheVariants.{Memory as OutOfMemory};

    ghost from_gives = { λ _ fault. fault ≡ OutOfMemory };

    fn from(_: AllocError) -> WorkFault {
        WorkFault::Memory
    }
}

impl From<CellsFault> for WorkFault {
    ghost use Rattle.std.specs.Prelude.{◌≡◌};
    ghost use Rattle.ldp_answer.specs.Works.{cells_work};

    ghost from_gives = { λ cells fault. fault ≡ cells_work cells };

    fn from(fault: CellsFault) -> WorkFault {
        match fault {
            CellsFault::Memory => WorkFault::Memory,
            _ => WorkFault::Refused(Refusal::RefusedCells(fault)),
        }
    }
}

impl From<SearchFault> for WorkFault {
    ghost use Rattle.std.specs.Prelude.{◌≡◌};
    ghost use Rattle.ldp_answer.specs.Works.{search_work};

    ghost from_gives = { λ search fault. fault ≡ search_work search };

    fn from(fault: SearchFault) -> WorkFault {
        match fault {
            SearchFault::Budget { evaluated } => WorkFault::Refused(Refusal::BudgetSpent(
                evaluated,
            )),
            SearchFault::NoUsable { .. } => WorkFault::Refused(Refusal::NoUsableDesign),
            SearchFault::Memory => WorkFault::Memory,
        }
    }
}

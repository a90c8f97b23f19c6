use ldp_answer::WorkFault;
use ldp_message::{FileRole, Refusal};
use std::alloc::AllocError;

/// Why a command that takes files stops before it has an answer.
#[derive(Clone, Copy, Debug, PartialEq, Eq)]
pub enum Stop {
    Refused(Refusal),
    /// A file could not be read: its place among the files of the words, from 0.
    Unread { place: u8, role: FileRole },
    Memory,
}

impl From<AllocError> for Stop {
    ghost use Rattle.std.specs.Prelude.{◌≡◌};
    ghost use Rattle.ldp_cli.specs.declared.stop.Stop.TheVariants.{Memory as OutOfMemory};

    ghost from_gives = { λ _ stop. stop ≡ OutOfMemory };

    fn from(_: AllocError) -> Stop {
        Stop::Memory
    }
}

impl From<WorkFault> for Stop {
    ghost use Rattle.std.specs.Prelude.{◌≡◌};
    ghost use Rattle.ldp_cli.specs.Work.{stop_of};

    ghost from_gives = { λ fault stop. stop ≡ stop_of fault };

    fn from(fault: WorkFault) -> Stop {
        match fault {
            WorkFault::Refused(refusal) => Stop::Refused(refusal),
            WorkFault::Memory => Stop::Memory,
        }
    }
}

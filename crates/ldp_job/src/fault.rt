ghost use Rattle.std.specs.Prelude.{◌≡◌};
ghost use Rattle.ldp_job.specs.declared.fault.JobFault.TheVariants.{Memory};

use std::alloc::AllocError;

/// Why a text is no job. Each fault but the first two names a line of the text, counted from 1.
#[derive(Clone, Copy, Debug, PartialEq, Eq)]
pub enum JobFault {
    /// The first line is not `ldp job` with a number.
    NotAJob,
    /// That number is no version that is known.
    Version(u32),
    /// The line does not fit its place.
    BadLine(u32),
    /// The line is one node more than a job may have.
    TooManyNodes(u32),
    /// The text ends before the line feed of this line.
    Unended(u32),
    /// Something stands behind the line `end`.
    Trailing(u32),
    Memory,
}

impl From<AllocError> for JobFault {
    ghost from_gives = { λ _ fault. fault ≡ Memory };

    fn from(_: AllocError) -> Self {
        JobFault::Memory
    }
}

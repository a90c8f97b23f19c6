ghost use Rattle.std.specs.Prelude.{◌≡◌, ◌≤◌, ◌+◌, ◌++◌, length};
ghost use Rattle.ldp_message.specs.JobFault.{job_fault_text};

use crate::line::Line;
use ldp_job::JobFault;

/// Appends the text of a fault of a job.
pub fn push_job_fault(line: &mut Line, fault: JobFault)
    requires { length line.old ≤ 16 }
    ensures text { line.new ≡ line.old ++ job_fault_text fault }
    ensures short { length line.new ≤ length line.old + 33 }
{
    match fault {
        JobFault::NotAJob => line.push(b"NotAJob"),
        JobFault::Version(number) => line.push_count(b"Version ", u64::from(number)),
        JobFault::BadLine(at) => line.push_count(b"BadLine ", u64::from(at)),
        JobFault::TooManyNodes(at) => line.push_count(b"TooManyNodes ", u64::from(at)),
        JobFault::Unended(at) => line.push_count(b"Unended ", u64::from(at)),
        JobFault::Trailing(at) => line.push_count(b"Trailing ", u64::from(at)),
        JobFault::Memory => line.push(b"Memory"),
    }
}

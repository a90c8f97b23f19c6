//! How a command that has no answer tells why: by a status, and by a line of fixed room.
//!
//! Each fault of a file is told by its name and then its values, each after a blank.
#![tactic(auto)]

mod cells_fault;
mod file_role;
mod grid_fault;
mod height_fault;
mod job_fault;
mod line;
mod refusal;
mod zone_fault;

pub use file_role::FileRole;
pub use line::Line;
pub use refusal::Refusal;

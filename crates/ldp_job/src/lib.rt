//! Certificates as texts.
#![tactic(auto)]

mod entry;
mod fault;
mod job;
pub mod laws;
mod line;
mod names;
mod objective;
mod read;
mod report;
mod share;
mod trees;
mod version;
mod word;
mod write;

pub use fault::JobFault;
pub use job::Job;
pub use names::{Names, Role};
pub use read::read_job;
pub use report::Report;
pub use share::Share;
pub use write::write_job;

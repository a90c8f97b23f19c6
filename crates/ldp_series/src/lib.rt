//! Lists of steps, their builder, and the written series.
#![tactic(auto)]

mod arctangent;
mod build;
mod cut;
mod cut_runs;
mod exponential;
mod list;
mod logarithm;
mod run;
mod series;

pub use build::Build;
pub use cut_runs::CutRuns;
pub use list::{List, Lists};
pub use std::alloc::AllocError as Memory;

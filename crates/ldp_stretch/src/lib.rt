//! Prepared cells that are cut into stretches. A hull of a stretch is a range for each result of
//! the cell list, and a run of the joint list in twins over it bounds the least absolute distortion
//! of a box of designs at all cells of the stretch at once.
#![tactic(auto)]

mod column;
mod hull;
mod span;
mod stretched;
mod stretches;
mod twin_spans;
mod twins;

pub use std::alloc::AllocError as Memory;
pub use stretched::Stretched;
pub use twin_spans::TwinSpans;

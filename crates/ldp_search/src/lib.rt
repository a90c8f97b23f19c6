//! The search: the first design of least cost, and the canonical forest that shows it.
//!
//! The open box of smallest bound is split next, so no box whose bound is above the least cost is
//! split. A second pass writes the forest, and asks for each bound again in place of keeping it.
#![tactic(auto)]

mod best_first;
mod bounded_box;
mod candidate;
mod evaluate;
mod explore;
mod fault;
mod found;
mod frontier;
mod stack;
mod state;
mod write;

pub use best_first::search;
pub use fault::SearchFault;
pub use found::Found;
pub use std::alloc::AllocError as Memory;

//! The plain bounder: the distortion of designs at the cells of a zone, and what the ranges of the
//! projections' lists bound of it over boxes of designs.
#![tactic(auto)]

mod benches;
mod box_sweep;
mod cell_by_cell;
mod design_runs;
mod design_sweep;
mod hints;
mod inputs;
mod kept;
mod kind_cells;
mod kinds;
pub mod laws;
mod lists;
mod lows;
mod plain;
mod sets;
mod single;
mod sizes;
mod summary;
mod tolerance;

pub use cell_by_cell::CellByCell;
pub use ldp_problem::{Bound, Bounds, Cost, Pair};
pub use lists::family_lists;
pub use plain::Plain;
pub use std::alloc::AllocError as Memory;

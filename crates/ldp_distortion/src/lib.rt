//! The linear distortion of a design at the cells of a zone, and its worst.
//!
//! A projection is three lists of steps. The cell list runs once a cell, when the cells are
//! prepared; the design list once a design; the joint list, over the results of both, gives the
//! distortion k R / (R + h) - 1 (NOAA SP NOS NGS 13) at a cell.
#![tactic(auto)]

mod inputs;
pub mod laws;
mod prepared;
mod table;
mod worst;

pub use inputs::Inputs;
pub use prepared::Prepared;
pub use std::alloc::AllocError as Memory;
pub use worst::Worst;

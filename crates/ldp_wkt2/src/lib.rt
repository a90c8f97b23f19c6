//! The coordinate reference system of a design as one line of WKT2 (ISO 19162), in one fixed
//! layout: each system has one line, and only these lines are read.
#![tactic(auto)]

mod crs;
mod fault;
mod line;
mod method;
mod parameter;
mod past;
mod read;
mod value;
mod write;

pub use crs::{Crs, crs_of};
pub use fault::CrsFault;
pub use read::read_crs;
pub use std::alloc::AllocError as Memory;
pub use write::write_crs;

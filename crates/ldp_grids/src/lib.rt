//! Reads the families of designs that a user writes as a TOML text.
//!
//! Degrees are whole numbers of 10^-12 degrees, scale factors of 10^-15, eastings and northings
//! of millimetres.
#![tactic(auto)]

mod axis;
mod column;
mod family;
mod fault;
mod number;
mod place;
mod quantities;
mod read;
mod table;

pub use column::{Form, form_of};
pub use fault::{GridFault, Part};
pub use read::read_grids;

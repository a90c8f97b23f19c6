//! Decimal texts both ways, by exact rounding.
//!
//! A number is a whole number of units of 10^-places; a text is in the number grammar of
//! `specs/Grammar.antt`.
#![tactic(auto)]

mod fault;
pub mod laws;
mod power;
mod read;
mod round;
mod scan;
mod text;
mod write;

pub use fault::NumFault;
pub use read::read_decimal;
pub use std::alloc::AllocError as Memory;
pub use text::Text;
pub use write::{write_decimal, write_trimmed};

//! Ranges of numbers, the carrier whose run of a formula holds the formula's value at each point,
//! and twins of ranges, the carrier whose run stands for runs over many ranges.
#![tactic(auto)]

mod choice;
pub mod laws;
pub mod pairs;
mod product;
mod quotient;
mod range;
mod square;
mod twin;
mod twin_product;
mod twin_quotient;
mod twin_square;

pub use range::{Range, hull, sharp};
pub use twin::Twin;

//! Items of slopes, the carrier whose run of a formula holds, at each point of a box, the formula's
//! value in mean value form.
#![tactic(auto)]

mod error;
mod input;
mod known;
pub mod laws;
mod lowest;
mod number;
mod product;
mod quotient;
mod root;
mod slope;
mod slopes;
mod square;
mod sum;

pub use known::Known;
pub use slope::Slope;
pub use slopes::Slopes;

//! Uncertain heights: the worst of a design over every list of cells whose heights are within a
//! tolerance.
#![tactic(auto)]

mod both;
pub mod laws;
mod side;

pub use both::slack;
pub use side::{Side, Slack};

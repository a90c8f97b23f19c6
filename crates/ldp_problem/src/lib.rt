//! Bounds on the distortion of a box of designs: what a search or a checker asks, whatever the
//! projections and the cells are.
#![tactic(auto)]

mod bound;
mod bounds;
mod cost;
pub mod laws;
mod pair;

pub use bound::Bound;
pub use bounds::Bounds;
pub use cost::Cost;
pub use pair::Pair;

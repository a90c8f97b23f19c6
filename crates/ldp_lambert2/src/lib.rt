//! The Lambert conformal conic projection with two standard parallels, as lists of steps (Snyder,
//! USGS PP 1395, chapter 15, on GRS 80). The scale factor on its parallels is the input of the
//! design list, 1 as Snyder has it.
//!
//! Stated domain of a design: q2 - q1 ≥ 1/128, with q the isometric latitude, outside of which the
//! design has no value; that of a cell is the one of the projection with one parallel, from the
//! first. Nothing is claimed about how near the values are to those of real numbers, and nothing
//! about the second parallel.
#![tactic(auto)]

mod design;
pub mod laws;
mod projection;

pub use ldp_series::Memory;
pub use projection::lists;

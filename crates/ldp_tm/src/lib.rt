//! The transverse Mercator projection as lists of steps (Snyder, USGS PP 1395, chapter 8, on GRS
//! 80).
//!
//! Stated domain: (λ - λ0)² ≤ 1/64 in radians, outside of which the distortion is undefined.
#![tactic(auto)]

mod cell;
mod coefficients;
mod design;
mod joint;
mod projection;

pub use ldp_series::Memory;
pub use projection::lists;

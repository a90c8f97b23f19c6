//! The Lambert conformal conic projection with one standard parallel, as lists of steps (Snyder,
//! USGS PP 1395, chapter 15, on GRS 80). The factor k0 is this project's own.
//!
//! Stated domain: (q1 - q)² ≤ 1/4, with q the isometric latitude, outside of which the distortion
//! is undefined. Nothing is claimed about how near the values are to those of real numbers.
#![tactic(auto)]

mod cell;
mod design;
mod joint;
mod projection;

pub use cell::cell_list;
pub use joint::joint_list;
pub use ldp_series::Memory;
pub use projection::lists;

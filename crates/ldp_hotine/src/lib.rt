//! The Hotine oblique Mercator projection with one centre point and an azimuth, as lists of steps
//! (after Snyder, USGS PP 1395, chapter 9, on GRS 80). The form of the scale factor is this
//! project's own.
//!
//! Stated domain: (q - qc)² ≤ 1, (B (λ - λ0))² ≤ 4 and cos (B (λ - λ0)) ≥ 1/16, outside of which
//! the distortion is undefined. Nothing is claimed about how the scale factor stands to a printed
//! formula, or how near its values are to those of real numbers.
#![tactic(auto)]

mod cell;
mod constants;
mod design;
mod joint;
mod origin;
mod projection;
mod scale;

pub use ldp_series::Memory;
pub use projection::lists;

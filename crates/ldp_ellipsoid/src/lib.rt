//! Groups of steps on the ellipsoid GRS 80 (Snyder, USGS PP 1395, chapters 3, 4, 14 and 15; NOAA SP
//! NOS NGS 13).
//!
//! A group that answers `Memory` may leave a part of its steps, and the build is then only dropped.
#![tactic(auto)]

mod groups;
mod latitude;
mod places;

pub use groups::{axis_ratio, geo, ground, meridian, second_eccentricity_squared};
pub use latitude::isometric;
pub use ldp_series::Memory;
pub use places::Geo;

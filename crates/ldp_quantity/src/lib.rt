//! Numbers of texts in a stated range: longitudes, latitudes, scale factors, and any other.
//!
//! Degrees are whole numbers of 10^-12 degrees, scale factors of 10^-15.
#![tactic(auto)]

mod between;
mod latitude;
mod longitude;
mod scale;
mod unfit;

pub use between::read_between;
pub use latitude::{HIGHEST_LATITUDE, LOWEST_LATITUDE, read_latitude};
pub use longitude::{EASTMOST_LONGITUDE, WESTMOST_LONGITUDE, read_longitude};
pub use scale::{GREATEST_SCALE, LEAST_SCALE, read_scale};
pub use unfit::Unfit;

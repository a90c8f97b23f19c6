//! Reads grids of ellipsoid heights, and tells the height and the centre of each place.
//!
//! A grid is a text in Esri's ASCII raster format, over latitude and longitude in degrees, with
//! heights in metres. It is read as a whole or in pieces.
#![tactic(auto)]

mod class;
mod coordinate;
mod fault;
mod grid;
mod header;
mod header_word;
mod height;
pub mod laws;
mod layout;
mod open_token;
mod progress;
mod read;
mod reader;
mod reading;
mod stage;

pub use fault::{HeightFault, Word};
pub use grid::Heights;
pub use read::read_heights;
pub use reader::HeightReader;

//! Zones: reads polygons of the Simple Features text, and tells whether a point lies in a zone.
//!
//! The text is that of OGC 06-103r4, over longitude and latitude in degrees; a point lies in a zone
//! by the even-odd rule over all rings.
#![tactic(auto)]

mod coordinates;
mod edge;
mod fault;
pub mod laws;
mod point;
mod product;
mod read;
mod reader;
mod ring;
mod signs;
mod spot;
mod walked;
mod zone;

pub use edge::Edge;
pub use fault::ZoneFault;
pub use point::Point;
pub use read::read_zone;
pub use zone::Zone;

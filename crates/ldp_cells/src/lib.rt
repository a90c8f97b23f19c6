//! The cells of a zone: the places of a height grid that have a height and whose centre lies in the
//! zone, in row order.
#![tactic(auto)]

mod cell;
mod choose;
mod fault;
mod outline;
mod region;
mod row;
mod scanline;
mod station;
mod sweep;
mod tally;

pub use cell::{Cell, Cells};
pub use choose::{area_cells, zone_cells};
pub use fault::CellsFault;
pub use station::station_cells;

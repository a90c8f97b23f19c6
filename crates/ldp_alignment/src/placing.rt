ghost use Rattle.std.specs.Prelude.{◌≡◌, ◌≢◌, IfOk};
ghost use Rattle.ldp_alignment.specs.Heights.{height_at};
ghost use Rattle.ldp_alignment.specs.Line.{IsStation};
ghost use Rattle.ldp_alignment.specs.Placed.{placed, station_with};

use crate::between::height_at;
use crate::line::Line;
use crate::place_fault::PlaceFault;
use crate::station::Station;
use ldp_heights::Heights;
use std::alloc::Global;

/// The line with the height of the grid at each station, in millimetres. `NoHeight` names the first
/// station where the grid gives none.
#[tactic(auto, unfolding(crate::specs::Placed::placed, crate::specs::Placed::placed_onto))]
pub fn place(alloc: Global, line: &Line, heights: &Heights) -> Result<Line, PlaceFault>
    ensures { result ≢ Err PlaceFault.Memory → result ≡ placed heights.now line.now }
{
    let stations = line.stations();
    let mut found = Vec::with_capacity(alloc, stations.len())?;
    for (number, station) in stations.iter().enumerate() {
        found.push(station_with(number as u32, station, heights)?)?;
    }
    Ok(Line::new(found))
}

/// A station with its height.
fn station_with(number: u32, station: &Station, heights: &Heights) -> Result<Station, PlaceFault>
    requires station { IsStation station.now }
    ensures value { result ≡ station_with number station.now
        (height_at heights.now station.now.x station.now.y) }
    ensures range { IfOk result IsStation }
    ensures along { IfOk result (λ next. next.chainage ≡ station.now.chainage) }
{
    match height_at(heights, station.x, station.y) {
        None => Err(PlaceFault::NoHeight(number)),
        Some(mm) => Ok(Station { mm, ..*station }),
    }
}

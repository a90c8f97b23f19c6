ghost use Rattle.std.specs.Prelude.{◌≡◌, ◌≤ℤ◌, pos, negsuc, IfOk};
ghost use Rattle.std.specs.Result.{result_map_both};
ghost use Rattle.toml.specs.View.{table_view};
ghost use Rattle.ldp_design.specs.Kinds.{by_kind};
ghost use Rattle.ldp_grids.specs.Facts.{AreQuantities, IsRead, family_from};
ghost use Rattle.ldp_grids.specs.Families.{quantities_of};

use crate::axis::read_quantity;
use crate::fault::GridFault;
use ldp_design::{Axis, Family, Key, Kind};
use toml::Table;

/// The axes and numbers of a family's table; a number is an axis of one value.
#[derive(Clone, Copy)]
pub struct Quantities {
    pub lat: Axis,
    pub lat2: Axis,
    pub lon: Axis,
    pub azimuth: Axis,
    pub scale: Axis,
    pub origin: Axis,
    pub easting: Axis,
    pub northing: Axis,
}

/// The quantities of a family, in the order of their faults.
#[tactic(auto, unfolding(crate::specs::Families::quantities_of))]
pub fn read_quantities(family: u16, kind: Kind, table: &Table) -> Result<Quantities, GridFault>
    ensures value { result_map_both (family_from kind) (λ fault. fault) result
        ≡ quantities_of family kind (table_view table.now) }
    ensures ranges { IfOk result (AreQuantities kind) }
{
    let lat = read_quantity(family, kind, Key::Lat, table)?;
    let lat2 = read_quantity(family, kind, Key::Lat2, table)?;
    let lon = read_quantity(family, kind, Key::Lon, table)?;
    let azimuth = read_quantity(family, kind, Key::Azimuth, table)?;
    let scale = read_quantity(family, kind, Key::Scale, table)?;
    let origin = read_quantity(family, kind, Key::Origin, table)?;
    let easting = read_quantity(family, kind, Key::Easting, table)?;
    let northing = read_quantity(family, kind, Key::Northing, table)?;
    Ok(Quantities {
        lat,
        lat2,
        lon,
        azimuth,
        scale,
        origin,
        easting,
        northing,
    })
}

impl Quantities {
    /// The family of this kind. Whether an axis crosses the equator, and whether it has too many
    /// designs, was not asked yet.
    pub fn family(&self, kind: Kind) -> Family
        requires { AreQuantities kind self.now }
        ensures value { result ≡ family_from kind self.now }
        ensures read { IsRead result }
    {
        Family {
            kind,
            lat: self.lat,
            lon: self.lon,
            azimuth: third_axis(kind, self.azimuth, self.lat2),
            scale: self.scale,
            origin: self.origin.from,
            easting: millimetres(&self.easting),
            northing: millimetres(&self.northing),
        }
    }
}

/// The third axis of designs.
fn third_axis(kind: Kind, azimuth: Axis, lat2: Axis) -> Axis
    ensures { result ≡ by_kind azimuth azimuth azimuth lat2 kind }
{
    match kind {
        Kind::Tm => azimuth,
        Kind::Lambert => azimuth,
        Kind::Hotine => azimuth,
        Kind::Lambert2 => lat2,
    }
}

/// A false easting or northing.
fn millimetres(axis: &Axis) -> i64
    requires low { negsuc 99_999_999_999 ≤ℤ axis.now.from }
    requires high { axis.now.from ≤ℤ pos 100_000_000_000 }
    ensures { result ≡ axis.now.from }
{
    axis.from as i64
}

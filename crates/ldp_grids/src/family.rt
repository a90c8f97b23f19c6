ghost use Rattle.std.specs.Prelude.{◌≡◌, ◌*◌, ◌^◌, ◌<◌, IfOk};
ghost use Rattle.toml.specs.View.{view, table_view};
ghost use Rattle.ldp_design.specs.Families.{IsValid, design_count};
ghost use Rattle.ldp_grids.specs.Facts.{IsBounded, IsRead};
ghost use Rattle.ldp_grids.specs.Families.{kind_of, known_quantities, crosses};
ghost use Rattle.ldp_grids.specs.Families.{crosses_equator, within_limits, family_of};

use crate::axis::last_value;
use crate::fault::{GridFault, Part};
use crate::number::{needed, read_text};
use crate::place::Place;
use crate::quantities::read_quantities;
use crate::table::{has_family_keys, value_at};
use ldp_design::{Axis, Family, Key, Kind, key_text, kind_named};
use toml::Table;

/// The most designs of a family.
const MOST_DESIGNS: u128 = 1_000_000_000_000;

/// The family of a table, which has this number in the text.
#[tactic(auto, unfolding(crate::specs::Families::family_of))]
pub fn read_family(family: u16, table: &Table) -> Result<Family, GridFault>
    ensures value { result ≡ family_of family (table_view table.now) }
    ensures valid { IfOk result IsValid }
{
    let kind = read_kind(family, table)?;
    let f = read_known_quantities(family, kind, table)?;
    within_limits(family, f)
}

/// The kind of a family.
#[tactic(auto, unfolding(crate::specs::Families::kind_of))]
fn read_kind(family: u16, table: &Table) -> Result<Kind, GridFault>
    ensures { result ≡ kind_of family (table_view table.now) }
{
    let at = Place {
        family,
        key: Key::Kind,
    };
    let value = needed(at, Part::Whole, value_at(table, key_text(Key::Kind)))?;
    let name = read_text(at, Part::Whole, value)?;
    match kind_named(name.as_bytes()) {
        Some(kind) => Ok(kind),
        None => Err(at.bad_value(Part::Whole)),
    }
}

/// The quantities of a family whose keys are all known.
fn read_known_quantities(family: u16, kind: Kind, table: &Table) -> Result<Family, GridFault>
    ensures value { result ≡ known_quantities family (table_view table.now) kind }
    ensures read { IfOk result IsRead }
{
    if has_family_keys(kind, table) {
        let quantities = read_quantities(family, kind, table)?;
        Ok(quantities.family(kind))
    } else {
        Err(GridFault::UnknownKey {
            family,
            table: Key::Family,
        })
    }
}

/// A family that crosses no equator and has not too many designs.
#[tactic(auto, unfolding(crate::specs::Families::within_limits))]
fn within_limits(family: u16, f: Family) -> Result<Family, GridFault>
    requires { IsRead f }
    ensures value { result ≡ within_limits family f }
    ensures valid { IfOk result IsValid }
{
    if crosses_equator(&f) {
        Err(GridFault::CrossesEquator { family })
    } else if design_count(&f) > MOST_DESIGNS {
        Err(GridFault::TooManyDesigns { family })
    } else {
        Ok(f)
    }
}

/// Whether an axis of parallels crosses the equator.
fn crosses_equator(f: &Family) -> bool
    requires { IsRead f.now }
    ensures { result ≡ crosses_equator f.now }
{
    if crosses(&f.lat) {
        return true;
    }
    match f.kind {
        Kind::Tm => false,
        Kind::Lambert => false,
        Kind::Hotine => false,
        Kind::Lambert2 => crosses(&f.azimuth),
    }
}

/// Whether the first value lies south of the equator and the last north of it.
fn crosses(axis: &Axis) -> bool
    requires { IsBounded axis.now }
    ensures { result ≡ crosses axis.now }
{
    axis.from < 0 && 0 < last_value(axis)
}

/// The number of designs.
fn design_count(f: &Family) -> u128
    ensures { result ≡ design_count f.now }
{
    u128::from(pair_count(&f.lat, &f.lon)) * u128::from(pair_count(&f.azimuth, &f.scale))
}

/// The number of pairs of values of two axes.
fn pair_count(a: &Axis, b: &Axis) -> u64
    ensures value { result ≡ a.now.count * b.now.count }
    ensures fits { result < 2 ^ 64 }
{
    u64::from(a.count) * u64::from(b.count)
}

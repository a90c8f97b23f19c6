ghost use Rattle.std.specs.Prelude.{◌≡◌, ◌≤◌, pos, negsuc, ◌≤ℤ◌, ◌*ℤ◌, option_map, IfOk};
ghost use Rattle.toml.specs.View.{view, table_view};
ghost use Rattle.ldp_design.specs.Families.{single_axis, last_value};
ghost use Rattle.ldp_design.specs.KeyRanges.{range_of, IsInKeyRange};
ghost use Rattle.ldp_grids.specs.Axes.{spaced_values, spaced_axis, single_of, axis_of, quantity_of};
ghost use Rattle.ldp_grids.specs.Axes.{unless_given, ending_in_range};
ghost use Rattle.ldp_grids.specs.Facts.{IsAxisIn, IsValueIn, IsQuantity};
ghost use Rattle.ldp_grids.specs.Numbers.{needed};

use crate::column::{Form, form_of};
use crate::fault::{GridFault, Part};
use crate::number::{needed, read_count, read_number, read_step};
use crate::place::Place;
use crate::table::{has_axis_keys, value_at};
use ldp_design::{Axis, Key, Kind, key_text, range_of};
use ldp_num::ONE;
use toml::{Table, Value};

/// The axis of a key in a family's table.
#[tactic(auto, unfolding(crate::specs::Axes::quantity_of))]
pub fn read_quantity(family: u16, kind: Kind, key: Key, table: &Table) -> Result<Axis, GridFault>
    ensures value { result ≡ quantity_of family kind key (table_view table.now) }
    ensures range { IfOk result (IsQuantity key kind) }
{
    let at = Place { family, key };
    let value = value_at(table, key_text(key));
    match form_of(key, kind) {
        Form::Never => Ok(single_axis(unless_given(key))),
        Form::Single => read_single(at, kind, needed(at, Part::Whole, value)?),
        Form::Axis => read_axis(at, kind, needed(at, Part::Whole, value)?),
        Form::Optional => match value {
            None => Ok(single_axis(unless_given(key))),
            Some(value) => read_single(at, kind, value),
        },
    }
}

fn single_axis(value: i128) -> Axis
    ensures { result ≡ single_axis value }
{
    Axis {
        from: value,
        step: 1,
        count: 1,
    }
}

/// The value of a key that is not given.
fn unless_given(key: Key) -> i128
    ensures { result ≡ unless_given key }
{
    match key {
        Key::Scale => ONE,
        Key::Top | Key::Family | Key::Kind => 0,
        Key::Lat | Key::Lat2 | Key::Lon | Key::Azimuth | Key::Origin => 0,
        Key::Easting | Key::Northing => 0,
    }
}

/// An axis of one value.
#[tactic(auto, unfolding(crate::specs::Axes::single_of))]
fn read_single(at: Place, kind: Kind, value: &Value) -> Result<Axis, GridFault>
    ensures value { result ≡ single_of at.family kind at.key (view value.now) }
    ensures range { IfOk result (IsValueIn (range_of at.key kind)) }
{
    Ok(single_axis(read_number(at, kind, Part::Whole, value)?))
}

/// An axis table, or one value.
#[tactic(auto, unfolding(crate::specs::Axes::axis_of), using(crate::proofs::Singles::single_is_axis))]
fn read_axis(at: Place, kind: Kind, value: &Value) -> Result<Axis, GridFault>
    ensures value { result ≡ axis_of at.family kind at.key (view value.now) }
    ensures range { IfOk result (IsAxisIn (range_of at.key kind)) }
{
    match value.as_table() {
        Some(table) => read_spaced(at, kind, table),
        None => {
            let axis = read_single(at, kind, value)?;
            Ok(axis)
        }
    }
}

/// The axis of a table.
#[tactic(auto, unfolding(crate::specs::Axes::spaced_axis))]
fn read_spaced(at: Place, kind: Kind, table: &Table) -> Result<Axis, GridFault>
    ensures value { result ≡ spaced_axis at.family kind at.key (table_view table.now) }
    ensures range { IfOk result (IsAxisIn (range_of at.key kind)) }
{
    if has_axis_keys(table) {
        read_spaced_values(at, kind, table)
    } else {
        Err(at.unknown_key())
    }
}

#[tactic(auto, unfolding(crate::specs::Axes::spaced_values))]
fn read_spaced_values(at: Place, kind: Kind, table: &Table) -> Result<Axis, GridFault>
    ensures value { result ≡ spaced_values at.family kind at.key (table_view table.now) }
    ensures range { IfOk result (IsAxisIn (range_of at.key kind)) }
{
    let first = needed(at, Part::From, value_at(table, "from"))?;
    let from = read_number(at, kind, Part::From, first)?;
    let step = read_step(at, kind, needed(at, Part::Step, value_at(table, "step"))?)?;
    let count = read_count(at, needed(at, Part::Count, value_at(table, "count"))?)?;
    spaced(at, kind, from, step, count)
}

/// The axis of these values, if the last is in range.
fn spaced(at: Place, kind: Kind, from: i128, step: i128, count: u32) -> Result<Axis, GridFault>
    requires first { IsInKeyRange (range_of at.key kind) from }
    requires forward { pos 1 ≤ℤ step }
    requires step { step ≤ℤ (pos 10 *ℤ (range_of at.key kind).high) }
    requires some { 1 ≤ count }
    requires few { count ≤ 100_000 }
    ensures value { result ≡ ending_in_range at.family kind at.key
        record { from = from; step = step; count = count } }
    ensures range { IfOk result (IsAxisIn (range_of at.key kind)) }
{
    let axis = Axis { from, step, count };
    if range_of(at.key, kind).has(last_value(&axis)) {
        Ok(axis)
    } else {
        Err(at.out_of_range(Part::Count))
    }
}

/// The value with the highest index.
pub fn last_value(axis: &Axis) -> i128
    requires low { negsuc 399_999_999_999_999 ≤ℤ axis.now.from }
    requires high { axis.now.from ≤ℤ pos 2_000_000_000_000_000 }
    requires forward { pos 1 ≤ℤ axis.now.step }
    requires step { axis.now.step ≤ℤ pos 20_000_000_000_000_000 }
    requires some { 1 ≤ axis.now.count }
    requires few { axis.now.count ≤ 100_000 }
    ensures { result ≡ last_value axis.now }
{
    axis.from + i128::from(axis.count - 1) * axis.step
}

ghost use Rattle.std.specs.Prelude.{◌≡◌, string_bytes, option_map};
ghost use Rattle.std.specs.BTreeMap.{keys};
ghost use Rattle.std.specs.List.{list_all};
ghost use Rattle.toml.specs.Data.{get_member};
ghost use Rattle.toml.specs.View.{view, table_view};
ghost use Rattle.ldp_grids.specs.Axes.{is_axis_key};
ghost use Rattle.ldp_grids.specs.Columns.{is_family_key};
ghost use Rattle.ldp_grids.specs.Reading.{is_top_key};
ghost use Rattle.ldp_grids.specs.Tables.{keys_of};

use crate::column::is_family_key;
use ldp_design::{Key, Kind, key_text};
use toml::{Table, Value};

/// The value of a key.
#[tactic(auto, using(toml::proofs::Views::table_get))]
pub fn value_at<'a>(table: &'a Table, key: &str) -> Option<&'a Value>
    ensures { option_map (λ value. view value.now) result
        ≡ get_member key.now (table_view table.now) }
{
    table.get(key)
}

/// Whether each key is one that a family of this kind may have.
#[tactic(auto, using(crate::proofs::Lists::all_keys))]
pub fn has_family_keys(kind: Kind, table: &Table) -> bool
    ensures { result ≡ list_all (is_family_key kind) (keys_of (table_view table.now)) }
{
    are_family_keys(kind, table)
}

fn are_family_keys(kind: Kind, table: &Table) -> bool
    ensures { result ≡ list_all (λ key. is_family_key kind (string_bytes key)) (keys table.now) }
{
    table.keys().all(|key| is_family_key(kind, key.as_str()))
}

/// Whether each key is one that an axis table may have.
#[tactic(auto, using(crate::proofs::Lists::all_keys))]
pub fn has_axis_keys(table: &Table) -> bool
    ensures { result ≡ list_all is_axis_key (keys_of (table_view table.now)) }
{
    are_axis_keys(table)
}

fn are_axis_keys(table: &Table) -> bool
    ensures { result ≡ list_all (λ key. is_axis_key (string_bytes key)) (keys table.now) }
{
    table.keys().all(|key| is_axis_key(key.as_str()))
}

fn is_axis_key(name: &str) -> bool
    ensures { result ≡ is_axis_key name.now }
{
    name == "from" || name == "step" || name == "count"
}

/// Whether each key is one that the whole text may have.
#[tactic(auto, using(crate::proofs::Lists::all_keys))]
pub fn has_top_keys(table: &Table) -> bool
    ensures { result ≡ list_all is_top_key (keys_of (table_view table.now)) }
{
    are_top_keys(table)
}

fn are_top_keys(table: &Table) -> bool
    ensures { result ≡ list_all (λ key. is_top_key (string_bytes key)) (keys table.now) }
{
    table.keys().all(|key| is_top_key(key.as_str()))
}

fn is_top_key(name: &str) -> bool
    ensures { result ≡ is_top_key name.now }
{
    name == key_text(Key::Family)
}

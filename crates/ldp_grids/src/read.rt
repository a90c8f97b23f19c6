ghost use Rattle.std.specs.Prelude.{◌≡◌, ◌≢◌, ◌≤◌, length, map, Some, None, is_some, IfOk, IfErr};
ghost use Rattle.std.specs.Prelude.{option_map};
ghost use Rattle.std.specs.List.{list_all};
ghost use Rattle.std.specs.Result.{result_map_both};
ghost use Rattle.toml.specs.Data.{as_table};
ghost use Rattle.toml.specs.View.{view, table_view, array_view};
ghost use Rattle.ldp_design.specs.Limits.{most_families};
ghost use Rattle.ldp_grids.specs.Reading.{document_of, are_tables, few_tables, families_at};
ghost use Rattle.ldp_grids.specs.Reading.{tables_of, families_from, as_plain, grids_of};

use crate::family::read_family;
use crate::fault::GridFault;
use crate::table::{has_top_keys, value_at};
use ldp_design::{Grids, Key, MOST_FAMILIES, key_text};
use ldp_tokens::skip_mark;
use std::alloc::Global;
use toml::value::Array;
use toml::{Table, Value};

/// Reads the families of a TOML text.
///
/// Each is a table of the array `family`; docs/INPUTS.md has the keys with their ranges.
#[tactic(auto, unfolding(crate::specs::Reading::grids_of))]
pub fn read_grids(alloc: Global, text: &[u8]) -> Result<Grids, GridFault>
    ensures exact { result ≢ Err GridFault.Memory → result ≡ grids_of text.now }
    ensures some { IfOk result (λ grids. 1 ≤ length grids.families) }
{
    let top = read_document(alloc, skip_mark(text))?;
    let tables = tables_of(&top)?;
    read_families(alloc, tables)
}

/// The document of a text without a mark.
#[tactic(auto, using(crate::proofs::Documents::document_some, crate::proofs::Documents::document_none))]
fn read_document(alloc: Global, text: &[u8]) -> Result<Table, GridFault>
    ensures ok { IfOk result (λ top. document_of text.now ≡ Some (table_view top)) }
    ensures cause { IfErr result (λ fault. fault ≢ GridFault.Memory → fault ≡ GridFault.NotToml) }
    ensures refused { result ≡ Err GridFault.NotToml → document_of text.now ≡ None }
{
    match toml::table_from_slice(alloc, text) {
        Ok(top) => Ok(top),
        Err(error) if error.is_memory() => Err(GridFault::Memory),
        Err(_) => Err(GridFault::NotToml),
    }
}

/// The tables of the families.
#[tactic(auto, unfolding(crate::specs::Reading::tables_of), using(crate::proofs::Lists::values_of_view))]
fn tables_of(top: &Table) -> Result<&[Value], GridFault>
    ensures value { result_map_both (λ values. map view values.now) (λ fault. fault) result
        ≡ tables_of (table_view top.now) }
    ensures few { IfOk result (λ values. length values.now ≤ most_families) }
    ensures some { IfOk result (λ values. 1 ≤ length values.now) }
{
    if !has_top_keys(top) {
        return Err(GridFault::UnknownKey {
            family: 0,
            table: Key::Top,
        });
    }
    match families_at(top) {
        Some(values) => few_tables(values.as_slice()),
        None => Err(GridFault::NoFamily),
    }
}

/// The array of families.
#[tactic(auto, unfolding(crate::specs::Reading::families_at))]
fn families_at(top: &Table) -> Option<&Array>
    ensures { option_map (λ values. array_view values.now) result
        ≡ families_at (table_view top.now) }
{
    match value_at(top, key_text(Key::Family)) {
        Some(value) => value.as_array(),
        None => None,
    }
}

/// At least one table and not too many.
fn few_tables(values: &[Value]) -> Result<&[Value], GridFault>
    ensures value { result_map_both (λ values. map view values.now) (λ fault. fault) result
        ≡ few_tables (map view values.now) }
    ensures few { IfOk result (λ values. length values.now ≤ most_families) }
    ensures some { IfOk result (λ values. 1 ≤ length values.now) }
{
    if values.is_empty() || !are_tables(values) {
        return Err(GridFault::NoFamily);
    }
    if values.len() > usize::from(MOST_FAMILIES) {
        let families = u32::try_from(values.len()).unwrap_or(u32::MAX);
        return Err(GridFault::TooManyFamilies(families));
    }
    Ok(values)
}

#[tactic(auto, using(crate::proofs::Lists::all_tables))]
fn are_tables(values: &[Value]) -> bool
    ensures { result ≡ are_tables (map view values.now) }
{
    all_tables(values)
}

fn all_tables(values: &[Value]) -> bool
    ensures { result ≡ list_all (λ value. is_some (as_table (view value))) values.now }
{
    values.iter().all(|value| value.is_table())
}

/// The families of the tables.
fn read_families(alloc: Global, tables: &[Value]) -> Result<Grids, GridFault>
    requires { length tables.now ≤ most_families }
    ensures exact { result ≢ Err GridFault.Memory → result
        ≡ as_plain (families_from 1 (map view tables.now)) }
    ensures count { IfOk result (λ grids. length grids.families ≡ length tables.now) }
{
    let mut grids = Grids::new(alloc);
    for value in tables {
        let family = match value.as_table() {
            Some(table) => read_family(grids.families() + 1, table)?,
            None => return Err(GridFault::NoFamily),
        };
        grids.push(family)?;
    }
    Ok(grids)
}

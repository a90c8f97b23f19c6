ghost use Rattle.std.specs.Prelude.{◌≡◌, ◌<◌, ◌≤◌, ◌++◌, [], ◌∷◌, length, map, All, false, IfOk};
ghost use Rattle.std.specs.Str.{IsAscii};
ghost use Rattle.serde_json.specs.Data.{array};
ghost use Rattle.serde_json.specs.View.{view, items_of};
ghost use Rattle.serde_json.specs.Written.{has_float, compact_text};
ghost use Rattle.ldp_num.specs.Number.{IsNumber};
ghost use Rattle.ldp_distortion.specs.Distortion.{distortions};
ghost use Rattle.ldp_distortion.specs.Inputs.{AreNumbers};
ghost use Rattle.ldp_distortion.specs.Prepared.{HasRoom, distortions_of};
ghost use Rattle.ldp_distortion.specs.Worst.{IsUsable, worst_of};
ghost use Rattle.ldp_table.specs.Rows.{rows_of, IsOver, IsRow};
ghost use Rattle.ldp_table.specs.Bands.{counts_of};
ghost use Rattle.ldp_table.specs.Objects.{count_data, ppm_data, row_data, object_of};
ghost use Rattle.ldp_table.specs.Objects.{table_data, worst_value, json_text};

use crate::band::counts_of;
use crate::row::{Row, rows_of};
use ldp_cells::Cells;
use ldp_decimal::{Text, write_decimal};
use ldp_distortion::{Inputs, Prepared, Worst};
use ldp_num::{Bench, Fix};
use serde_json::{Value, json};
use std::alloc::{AllocError as Memory, Global};

fn ascii(bytes: &[u8]) -> &str
    requires { IsAscii bytes.now }
    ensures { result.now ≡ bytes.now }
{
    std::str::from_utf8(bytes).unwrap_or("")
}

/// A distortion in parts per million, as a string.
fn ppm_value(alloc: Global, distortion: i128) -> Result<Value, Memory>
    requires { IsNumber distortion }
    ensures { IfOk result (λ value. view value ≡ ppm_data distortion) }
{
    let text = write_decimal(alloc, distortion, 9)?;
    json!(in alloc; ascii(text.bytes()))
}

fn row_value(alloc: Global, row: &Row) -> Result<Value, Memory>
    requires { IsRow row.now }
    ensures { IfOk result (λ value. view value ≡ row_data row.now) }
{
    let ppm = ppm_value(alloc, row.distortion)?;
    json!(in alloc; [row.cell.row, row.cell.col, ppm])
}

fn cells_value(alloc: Global, rows: &[Row]) -> Result<Value, Memory>
    requires { All IsRow rows.now }
    ensures { IfOk result (λ value. view value ≡ array (items_of (map row_data rows.now))) }
{
    let mut values = Vec::with_capacity(alloc, rows.len())?;
    for row in rows {
        values.push(row_value(alloc, row)?)?;
    }
    Ok(Value::Array(values))
}

fn bands_value(alloc: Global, rows: &[Row]) -> Result<Value, Memory>
    requires { length rows.now ≤ 200_000 }
    ensures { IfOk result (λ value.
        view value ≡ array (items_of (map count_data (counts_of rows.now)))) }
{
    let [first, second, third, fourth, fifth, over] = counts_of(rows);
    json!(in alloc; [first, second, third, fourth, fifth, over])
}

/// The object, by its members.
fn object_value(
    alloc: Global,
    bands: Value,
    cells: Value,
    missing: u32,
    worst: Value,
) -> Result<Value, Memory>
    ensures { IfOk result (λ value. view value
        ≡ object_of (view bands) (view cells) (count_data missing) (view worst)) }
{
    json!(in alloc; {
        "bands": bands,
        "cells": cells,
        "missing": missing,
        "worst": worst,
    })
}

/// The object of a table.
fn table_value(alloc: Global, rows: &[Row], missing: u32, worst: i128) -> Result<Value, Memory>
    requires rows { All IsRow rows.now }
    requires few { length rows.now ≤ 200_000 }
    requires worst { IsNumber worst }
    ensures { IfOk result (λ value. view value ≡ table_data rows.now missing worst) }
{
    let bands = bands_value(alloc, rows)?;
    let cells = cells_value(alloc, rows)?;
    let ppm = ppm_value(alloc, worst)?;
    object_value(alloc, bands, cells, missing, ppm)
}

/// The text of a value with no float, and a line feed.
fn json_line(alloc: Global, value: &Value) -> Result<Text, Memory>
    requires { has_float (view value.now) ≡ false }
    ensures { IfOk result (λ text. text ≡ compact_text (view value.now) ++ 10 ∷ []) }
{
    let mut text = Text::new(alloc);
    text.push(value.to_string(alloc)?.as_bytes())?;
    text.push(b"\n")?;
    Ok(text)
}

/// The largest absolute distortion of a usable design.
fn worst_value(prepared: &Prepared, bench: &mut Bench<Fix>, at: Inputs) -> i128
    requires numbers { AreNumbers at }
    requires room { HasRoom prepared.now.lists bench.old.room }
    requires some { 0 < length prepared.now.results }
    ensures value { result ≡ worst_value (worst_of (distortions_of prepared.now at)) }
    ensures number { IsNumber result }
    ensures room { bench.new.room ≡ bench.old.room }
{
    match prepared.worst(bench, at) {
        Worst::Is { value, .. } => value,
        Worst::Unusable { .. } => 0,
    }
}

/// The table of a design as one JSON object and a line feed: how many cells lie in each band, row,
/// column and distortion of each cell, the number of places with no height, and the worst.
pub fn table_json(
    alloc: Global,
    prepared: &Prepared,
    bench: &mut Bench<Fix>,
    cells: &Cells,
    at: Inputs,
) -> Result<Text, Memory>
    requires numbers { AreNumbers at }
    requires room { HasRoom prepared.now.lists bench.old.room }
    requires some { 0 < length cells.now.cells }
    requires over { IsOver prepared.now cells.now.cells }
    requires usable { IsUsable (distortions prepared.now.lists at cells.now.cells) }
    ensures text { let found = distortions prepared.now.lists at cells.now.cells in
        IfOk result (λ text. text ≡ json_text (rows_of cells.now.cells found)
        cells.now.missing (worst_value (worst_of found))) }
    ensures room { bench.new.room ≡ bench.old.room }
{
    let worst = worst_value(prepared, bench, at);
    let rows = rows_of(alloc, prepared, bench, cells, at)?;
    let value = table_value(alloc, &rows, cells.missing(), worst)?;
    json_line(alloc, &value)
}

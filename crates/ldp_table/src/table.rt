ghost use Rattle.std.specs.Prelude.{◌≡◌, ◌<◌, ◌≤◌, ◌++◌, ◌∷◌, length, map, All, decimal, IfOk, OnOk};
ghost use Rattle.ldp_spelling.specs.Texts.{line_text, lines_text};
ghost use Rattle.ldp_distortion.specs.Distortion.{distortions};
ghost use Rattle.ldp_distortion.specs.Inputs.{AreNumbers};
ghost use Rattle.ldp_distortion.specs.Prepared.{HasRoom};
ghost use Rattle.ldp_distortion.specs.Worst.{IsUsable};
ghost use Rattle.ldp_table.specs.Rows.{rows_of, IsOver, IsRow};
ghost use Rattle.ldp_table.specs.Bands.{edges, counts_of};
ghost use Rattle.ldp_table.specs.Texts.{row_words, cells_words, band_words, over_words};
ghost use Rattle.ldp_table.specs.Texts.{bands_words, table_text};

use crate::band::{EDGES, counts_of};
use crate::row::{Row, rows_of};
use itoa::Buffer;
use ldp_cells::Cells;
use ldp_decimal::Text;
use ldp_distortion::{Inputs, Prepared};
use ldp_num::{Bench, Fix};
use ldp_spelling::{push_fixed, push_trimmed, push_whole};
use std::alloc::{AllocError as Memory, Global};

/// The row and the column of a cell.
fn push_place(text: &mut Text, row: u32, col: u32) -> Result<(), Memory>
    ensures { OnOk result (text.new ≡ text.old ++ (decimal row ++ 32 ∷ decimal col)) }
{
    let mut buffer = Buffer::new();
    text.push(buffer.format(row).as_bytes())?;
    push_whole(text, u64::from(col))
}

fn push_row(alloc: Global, text: &mut Text, row: &Row) -> Result<(), Memory>
    requires { IsRow row.now }
    ensures { OnOk result (text.new ≡ text.old ++ line_text (row_words row.now)) }
{
    push_place(text, row.cell.row, row.cell.col)?;
    push_trimmed(alloc, text, row.cell.y, 12)?;
    push_trimmed(alloc, text, row.cell.x, 12)?;
    push_trimmed(alloc, text, i128::from(row.cell.mm), 3)?;
    push_fixed(alloc, text, row.distortion, 9)?;
    text.push(b"\n")
}

fn push_rows(alloc: Global, text: &mut Text, rows: &[Row]) -> Result<(), Memory>
    requires { All IsRow rows.now }
    ensures { OnOk result (text.new ≡ text.old ++ lines_text (map row_words rows.now)) }
{
    for row in rows {
        push_row(alloc, text, row)?;
    }
    Ok(())
}

fn push_cells(text: &mut Text, cells: u32, missing: u32) -> Result<(), Memory>
    ensures { OnOk result (text.new ≡ text.old ++ line_text (cells_words cells missing)) }
{
    text.push(b"cells")?;
    push_whole(text, u64::from(cells))?;
    text.push(b" missing")?;
    push_whole(text, u64::from(missing))?;
    text.push(b"\n")
}

fn push_band(text: &mut Text, edge: u32, count: u32) -> Result<(), Memory>
    ensures { OnOk result (text.new ≡ text.old ++ line_text (band_words edge count)) }
{
    text.push(b"band")?;
    push_whole(text, u64::from(edge))?;
    push_whole(text, u64::from(count))?;
    text.push(b"\n")
}

fn push_over(text: &mut Text, count: u32) -> Result<(), Memory>
    ensures { OnOk result (text.new ≡ text.old ++ line_text (over_words count)) }
{
    text.push(b"over")?;
    push_whole(text, u64::from(count))?;
    text.push(b"\n")
}

fn push_bands(text: &mut Text, counts: &[u32; 6]) -> Result<(), Memory>
    ensures { OnOk result (text.new ≡ text.old ++ lines_text (bands_words edges counts.now)) }
{
    for (band, edge) in EDGES.iter().enumerate() {
        push_band(text, *edge, counts[band])?;
    }
    push_over(text, counts[5])
}

fn text_of(alloc: Global, rows: &[Row], missing: u32) -> Result<Text, Memory>
    requires rows { All IsRow rows.now }
    requires few { length rows.now ≤ 200_000 }
    ensures { IfOk result (λ text. text ≡ table_text rows.now missing) }
{
    let mut text = Text::new(alloc);
    push_rows(alloc, &mut text, rows)?;
    push_cells(&mut text, rows.len() as u32, missing)?;
    push_bands(&mut text, &counts_of(rows))?;
    Ok(text)
}

/// The table of a design: a line a cell, then the number of cells and of places with no height,
/// then how many cells lie in each band.
pub fn table_text(
    alloc: Global,
    prepared: &Prepared,
    bench: &mut Bench<Fix>,
    cells: &Cells,
    at: Inputs,
) -> Result<Text, Memory>
    requires numbers { AreNumbers at }
    requires room { HasRoom prepared.now.lists bench.old.room }
    requires some { 0 < length cells.now.cells }
    requires over { IsOver prepared.now cells.now.cells }
    requires usable { IsUsable (distortions prepared.now.lists at cells.now.cells) }
    ensures text { let found = distortions prepared.now.lists at cells.now.cells in
        IfOk result (λ text.
        text ≡ table_text (rows_of cells.now.cells found) cells.now.missing) }
    ensures room { bench.new.room ≡ bench.old.room }
{
    let rows = rows_of(alloc, prepared, bench, cells, at)?;
    text_of(alloc, &rows, cells.missing())
}

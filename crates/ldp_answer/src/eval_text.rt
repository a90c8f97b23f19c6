ghost use Rattle.std.specs.Prelude.{◌≡◌, ◌≤ℤ◌, ◌++◌, pos, negsuc, IfOk, OnOk, decimal};
ghost use Rattle.ldp_answer.specs.EvalText.{cells_line, worst_line, eval_text};

use itoa::Buffer;
use ldp_decimal::{Memory, Text, write_decimal};
use std::alloc::Global;

/// What `eval` prints: the worst value is in units of 10^-9 ppm.
pub fn eval_text(
    alloc: Global,
    cells: u32,
    missing: u32,
    worst: i128,
    row: u32,
    column: u32,
) -> Result<Text, Memory>
    requires low { negsuc 9999999999999999999 ≤ℤ worst }
    requires high { worst ≤ℤ pos 10000000000000000000 }
    ensures { IfOk result (λ text. text ≡ eval_text cells missing worst row column) }
{
    let mut text = Text::new(alloc);
    push_cells(&mut text, cells, missing)?;
    let ppm = write_decimal(alloc, worst, 9)?;
    push_worst(&mut text, ppm.bytes(), row, column)?;
    Ok(text)
}

fn push_cells(text: &mut Text, cells: u32, missing: u32) -> Result<(), Memory>
    ensures { OnOk result (text.new ≡ text.old ++ cells_line cells missing) }
{
    text.push(b"cells ")?;
    push_number(text, cells)?;
    text.push(b" missing ")?;
    push_number(text, missing)?;
    text.push(b"\n")
}

fn push_worst(text: &mut Text, ppm: &[u8], row: u32, column: u32) -> Result<(), Memory>
    ensures { OnOk result (text.new ≡ text.old ++ worst_line ppm.now row column) }
{
    text.push(b"worst ")?;
    text.push(ppm)?;
    text.push(b" ppm at ")?;
    push_number(text, row)?;
    text.push(b" ")?;
    push_number(text, column)?;
    text.push(b"\n")
}

fn push_number(text: &mut Text, number: u32) -> Result<(), Memory>
    ensures { OnOk result (text.new ≡ text.old ++ decimal number) }
{
    text.push(Buffer::new().format(number).as_bytes())
}

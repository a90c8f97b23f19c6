ghost use Rattle.std.specs.Prelude.{◌≡◌, ◌+◌, ◌*◌, ◌/◌, ◌%◌, ◌^◌, ◌<◌, ◌==◌, ◌++◌, IfOk, OnOk};
ghost use Rattle.std.specs.Prelude.{decimal, codes, if◌then◌else◌};
ghost use Rattle.ldp_answer.specs.SampleInputs.{IsSampleNumber, sample_header, next_state};
ghost use Rattle.ldp_answer.specs.SampleInputs.{sample_grid};

use itoa::Buffer;
use ldp_decimal::{Memory, Text};
use std::alloc::Global;

/// The columns and the places of the grid.
const COLUMNS: u64 = 16;

const PLACES: u64 = 192;

/// The text of a grid of heights in metres, an Esri ASCII grid over degrees.
pub fn sample_grid(alloc: Global, number: u32) -> Result<Text, Memory>
    requires { IsSampleNumber number }
    ensures { IfOk result (λ text. text ≡ sample_grid number) }
{
    let mut text = Text::new(alloc);
    text.push(header())?;
    let mut state = u64::from(number);
    for place in 0..PLACES {
        state = next_state(state);
        push_place(&mut text, place % COLUMNS, state)?;
    }
    Ok(text)
}

#[tactic(auto, unfolding(crate::specs::SampleInputs::sample_header))]
fn header() -> &'static [u8]
    ensures { result.now ≡ sample_header }
{
    b"ncols 16\nnrows 12\nxllcorner -106\nyllcorner 39.5\ncellsize 0.0625\n"
}

/// The next state of the generator.
fn next_state(state: u64) -> u64
    requires { state < 2 ^ 31 }
    ensures value { result ≡ next_state state }
    ensures range { result < 2 ^ 31 }
{
    (1_103_515_245 * state + 12_345) % (1 << 31)
}

/// A height, and behind it a line feed at the end of a row, else a space.
fn push_place(text: &mut Text, column: u64, state: u64) -> Result<(), Memory>
    requires { column < 16 }
    ensures { OnOk result (text.new ≡ text.old
        ++ (decimal (1000 + 40 * column + state / 65536 % 100)
        ++ (if column == 15 then codes "\n" else codes " "))) }
{
    let height = 1000 + 40 * column + state / 65536 % 100;
    text.push(Buffer::new().format(height).as_bytes())?;
    text.push(if column == COLUMNS - 1 { b"\n" } else { b" " })
}

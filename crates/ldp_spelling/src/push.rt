ghost use Rattle.std.specs.Prelude.{◌≡◌, ◌≤◌, ◌≤ℤ◌, ◌++◌, ◌∷◌, pos, neg_ℤ, decimal, OnOk};
ghost use Rattle.ldp_num.specs.Number.{limit};
ghost use Rattle.ldp_decimal.specs.Writing.{decimal_text, trimmed_text};

use itoa::Buffer;
use ldp_decimal::{Memory, Text, write_decimal, write_trimmed};
use std::alloc::Global;

/// Writes a space and the digits of a whole number behind a text.
pub fn push_whole(text: &mut Text, number: u64) -> Result<(), Memory>
    ensures { OnOk result (text.new ≡ text.old ++ 32 ∷ decimal number) }
{
    let mut buffer = Buffer::new();
    text.push(b" ")?;
    text.push(buffer.format(number).as_bytes())
}

/// Writes a space and a number of units of 10^-`places` with no zeros at its end behind a text.
pub fn push_trimmed(alloc: Global, text: &mut Text, value: i128, places: u32) -> Result<(), Memory>
    requires places { places ≤ 15 }
    requires low { neg_ℤ (pos limit) ≤ℤ value }
    requires high { value ≤ℤ pos limit }
    ensures { OnOk result (text.new ≡ text.old ++ 32 ∷ trimmed_text places value) }
{
    text.push(b" ")?;
    text.push(write_trimmed(alloc, value, places)?.bytes())
}

/// Writes a space and a number of units of 10^-`places` with all its places behind a text.
pub fn push_fixed(alloc: Global, text: &mut Text, value: i128, places: u32) -> Result<(), Memory>
    requires places { places ≤ 15 }
    requires low { neg_ℤ (pos limit) ≤ℤ value }
    requires high { value ≤ℤ pos limit }
    ensures { OnOk result (text.new ≡ text.old ++ 32 ∷ decimal_text places value) }
{
    text.push(b" ")?;
    text.push(write_decimal(alloc, value, places)?.bytes())
}

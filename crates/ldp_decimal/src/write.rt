ghost use Rattle.std.specs.Prelude.{◌≡◌, ◌≤◌, ◌<◌, ◌≤ℤ◌, ◌++◌, pos, negsuc, unsigned_abs};
ghost use Rattle.std.specs.Prelude.{IfOk, OnOk, length, drop};
ghost use Rattle.ldp_decimal.specs.Writing.{sign, whole_digits, further_digits, pointed};
ghost use Rattle.ldp_decimal.specs.Writing.{without_zeros, decimal_text, trimmed_text};

use crate::power::power_of_ten;
use crate::text::Text;
use itoa::Buffer;
use std::alloc::{AllocError as Memory, Global};

fn sign_of(v: i128) -> &'static [u8]
    ensures { result.now ≡ sign v }
{
    if v < 0 { b"-" } else { b"" }
}

fn push_whole(text: &mut Text, magnitude: u128, places: u32) -> Result<(), Memory>
    requires { places ≤ 15 }
    ensures { OnOk result (text.new ≡ text.old ++ whole_digits places magnitude) }
{
    let mut buffer = Buffer::new();
    text.push(buffer.format(magnitude / power_of_ten(places)).as_bytes())
}

fn behind_first(digits: &[u8]) -> &[u8]
    requires { 1 ≤ length digits.now }
    ensures { result.now ≡ drop 1 digits.now }
{
    &digits[1..]
}

/// One unit more in front keeps the zeros behind the point; its `1` is left out.
fn further(buffer: &mut Buffer, magnitude: u128, places: u32) -> &[u8]
    requires { places ≤ 15 }
    ensures { result.now ≡ further_digits places magnitude }
{
    let unit = power_of_ten(places);
    behind_first(buffer.format(unit + magnitude % unit).as_bytes())
}

fn push_behind_point(text: &mut Text, digits: &[u8]) -> Result<(), Memory>
    ensures { OnOk result (text.new ≡ text.old ++ pointed digits.now) }
{
    if digits.is_empty() {
        return Ok(());
    }
    text.push(b".")?;
    text.push(digits)
}

fn trimmed(digits: &[u8]) -> &[u8]
    ensures { result.now ≡ without_zeros digits.now }
{
    let mut kept = digits.len();
    while kept > 0 && digits[kept - 1] == b'0' {
        kept -= 1;
    }
    &digits[..kept]
}

/// `v` units of 10^-`places`, with exactly `places` digits behind the point, and no point where
/// `places` is 0.
#[tactic(auto, unfolding(crate::specs::Writing::decimal_text))]
pub fn write_decimal(alloc: Global, v: i128, places: u32) -> Result<Text, Memory>
    requires places { places ≤ 15 }
    requires low { negsuc 9999999999999999999 ≤ℤ v }
    requires high { v ≤ℤ pos 10000000000000000000 }
    ensures { IfOk result (λ t. t ≡ decimal_text places v) }
{
    let magnitude = v.unsigned_abs();
    let mut text = Text::new(alloc);
    text.push(sign_of(v))?;
    push_whole(&mut text, magnitude, places)?;
    push_behind_point(&mut text, further(&mut Buffer::new(), magnitude, places))?;
    Ok(text)
}

/// The same without zeros at the end behind the point, and without a point that nothing follows.
#[tactic(auto, unfolding(crate::specs::Writing::trimmed_text))]
pub fn write_trimmed(alloc: Global, v: i128, places: u32) -> Result<Text, Memory>
    requires places { places ≤ 15 }
    requires low { negsuc 9999999999999999999 ≤ℤ v }
    requires high { v ≤ℤ pos 10000000000000000000 }
    ensures { IfOk result (λ t. t ≡ trimmed_text places v) }
{
    let magnitude = v.unsigned_abs();
    let mut text = Text::new(alloc);
    text.push(sign_of(v))?;
    push_whole(&mut text, magnitude, places)?;
    let mut buffer = Buffer::new();
    let digits = trimmed(further(&mut buffer, magnitude, places));
    push_behind_point(&mut text, digits)?;
    Ok(text)
}

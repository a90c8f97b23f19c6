ghost use Rattle.std.specs.Prelude.{◌≡◌, ◌≤◌, ◌+◌, ◌*◌, ◌^◌, ◌<◌, length, take, drop};
ghost use Rattle.ldp_decimal.specs.Grammar.{AreDigits, value, value_after};
ghost use Rattle.ldp_decimal.specs.Fraction.{fraction_of, magnitude};
ghost use Rattle.ldp_decimal.specs.Scanned.{parts_seen, digits_seen, InRange, IsAtMost};
ghost use Rattle.ldp_decimal.specs.Scanned.{rounds_up, by_digit};

use crate::power::power_of_ten;
use crate::scan::Scanned;

/// The number that the digits make after `number`.
#[tactic(auto, using(crate::proofs::Digits::value_grows))]
fn more_digits(number: u128, digits: &[u8], limit: u128) -> Option<u128>
    requires digits { AreDigits digits.now }
    requires start { number ≤ limit }
    requires limit { limit ≤ 10000000000000000000 }
    ensures { IsAtMost limit (value_after number digits.now) result }
{
    let mut number = number;
    for digit in digits {
        number = number * 10 + (*digit - b'0') as u128;
        if number > limit {
            return None;
        }
    }
    Some(number)
}

/// The number of the first `count` digits.
fn leading(scanned: &Scanned<'_>, count: usize, limit: u128) -> Option<u128>
    requires range { InRange scanned.now }
    requires count { count ≤ length (digits_seen scanned.now) }
    requires limit { limit ≤ 10000000000000000000 }
    ensures { IsAtMost limit (value (take count (digits_seen scanned.now))) result }
{
    let from_whole = count.min(scanned.whole.len());
    let number = more_digits(0, &scanned.whole[..from_whole], limit)?;
    more_digits(number, &scanned.fraction[..count - from_whole], limit)
}

/// Whether what stands from this digit on is a half or more.
fn is_half_from(scanned: &Scanned<'_>, index: usize) -> bool
    requires { length scanned.now.whole.now + length scanned.now.fraction.now ≤ 64 }
    ensures { result ≡ rounds_up (drop index (digits_seen scanned.now)) }
{
    let whole = scanned.whole.len();
    if index < whole {
        return scanned.whole[index] >= b'5';
    }
    index - whole < scanned.fraction.len() && scanned.fraction[index - whole] >= b'5'
}

/// The number of the first `kept` digits, rounded by the others.
#[tactic(auto, using(crate::proofs::Rounding::by_digit_grows, crate::proofs::Rounding::by_digit_up, crate::proofs::Rounding::by_digit_down,))]
fn rounded_after(scanned: &Scanned<'_>, kept: usize, limit: u128) -> Option<u128>
    requires range { InRange scanned.now }
    requires kept { kept ≤ length (digits_seen scanned.now) }
    requires limit { limit ≤ 10000000000000000000 }
    ensures { let digits = digits_seen scanned.now in
        IsAtMost limit (by_digit (value (take kept digits)) (drop kept digits)) result }
{
    let number = leading(scanned, kept, limit)?;
    if !is_half_from(scanned, kept) {
        return Some(number);
    }
    if number == limit {
        None
    } else {
        Some(number + 1)
    }
}

/// The number of all digits with `zeros` zeros behind them: no power above the limit is made.
fn with_zeros(scanned: &Scanned<'_>, zeros: usize, limit: u128) -> Option<u128>
    requires range { InRange scanned.now }
    requires limit { limit ≤ 10000000000000000000 }
    ensures { IsAtMost limit (value (digits_seen scanned.now) * 10 ^ zeros) result }
{
    let number = leading(scanned, scanned.whole.len() + scanned.fraction.len(), limit)?;
    if number == 0 {
        return Some(0);
    }
    if zeros > 19 {
        return None;
    }
    let shifted = number * power_of_ten(zeros as u32);
    if shifted <= limit {
        Some(shifted)
    } else {
        None
    }
}

/// The rounded magnitude of a number, if it is at most the limit.
pub fn magnitude_within(scanned: &Scanned<'_>, places: u32, limit: u128) -> Option<u128>
    requires range { InRange scanned.now }
    requires places { places ≤ 15 }
    requires limit { limit ≤ 10000000000000000000 }
    ensures { IsAtMost limit (magnitude places (fraction_of (parts_seen scanned.now))) result }
{
    let count = scanned.whole.len() + scanned.fraction.len();
    let reach = scanned.whole.len() + scanned.raise as usize + places as usize;
    let lower = scanned.lower as usize;
    if reach < lower {
        return Some(0);
    }
    let kept = reach - lower;
    if kept <= count {
        rounded_after(scanned, kept, limit)
    } else {
        with_zeros(scanned, kept - count, limit)
    }
}

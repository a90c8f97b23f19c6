ghost use Rattle.std.specs.Prelude.{◌≡◌, ◌≢◌, ◌≤◌, ◌<◌, ◌^◌, ◌≤ℤ◌, ◌++◌, ℕ, ℤ, pos, neg_ℤ};
ghost use Rattle.std.specs.Prelude.{unsigned_abs, bytes_eq, List, replicate, MatchOption, IfSome};
ghost use Rattle.ldp_num.specs.Number.{limit};
ghost use Rattle.ldp_decimal.specs.Writing.{sign, without_zeros, whole_digits, trimmed_text};
ghost use Rattle.ldp_decimal.specs.Writing.{decimal_text};
ghost use Rattle.ldp_spelling.specs.Numbers.{behind_point, trimmed_in, fixed_in, IsWritten};

use itoa::Buffer;
use ldp_decimal::read_decimal;
use ldp_num::LIMIT;

fn sign_of(number: i128) -> &'static [u8]
    ensures { result.now ≡ sign number }
{
    if number < 0 { b"-" } else { b"" }
}

fn unit_of(places: u32) -> u128
    requires { places ≤ 15 }
    ensures value { result ≡ 10 ^ places }
    ensures positive { 0 < result }
    ensures small { result ≤ 1000000000000000 }
{
    10u128.pow(places)
}

/// At most fifteen zeros.
fn zeros(count: usize) -> &'static [u8]
    requires { count ≤ 15 }
    ensures { result.now ≡ replicate count 48 }
{
    &b"000000000000000"[..count]
}

fn trimmed(digits: &[u8]) -> &[u8]
    ensures { result.now ≡ without_zeros digits.now }
{
    let mut kept = digits.len();
    while kept > 0 && digits[kept - 1] == b'0' {
        kept -= 1;
    }
    &digits[..kept]
}

/// What follows a front.
fn behind<'a>(text: &'a [u8], front: &[u8]) -> Option<&'a [u8]>
    ensures { MatchOption result ((rest : List ℕ) → text.now ≢ front.now ++ rest)
        (λ r. text.now ≡ front.now ++ r.now) }
{
    text.strip_prefix(front)
}

/// Whether the text is a point, so many zeros and these digits, or nothing where there are none.
fn is_pointed(text: &[u8], count: usize, digits: &[u8]) -> bool
    requires { count ≤ 15 }
    ensures { result ≡ bytes_eq (behind_point count digits.now) text.now }
{
    if digits.is_empty() {
        return text.is_empty();
    }
    let Some(text) = behind(text, b".") else {
        return false;
    };
    match behind(text, zeros(count)) {
        Some(rest) => rest == digits,
        None => false,
    }
}

/// What follows the sign and the digits before the point.
fn behind_whole(text: &[u8], number: i128, places: u32) -> Option<&[u8]>
    requires { places ≤ 15 }
    ensures { let front = sign number ++ whole_digits places (unsigned_abs number) in
        MatchOption result ((rest : List ℕ) → text.now ≢ front ++ rest)
        (λ r. text.now ≡ front ++ r.now) }
{
    let mut buffer = Buffer::new();
    let text = behind(text, sign_of(number))?;
    let whole = number.unsigned_abs() / unit_of(places);
    behind(text, buffer.format(whole).as_bytes())
}

fn is_trimmed(text: &[u8], number: i128, places: u32) -> bool
    requires { (1 ≤ places) × (places ≤ 15) }
    ensures { result ≡ bytes_eq (trimmed_text places number) text.now }
{
    let mut buffer = Buffer::new();
    let digits = buffer
        .format(number.unsigned_abs() % unit_of(places))
        .as_bytes();
    let count = (places as usize).saturating_sub(digits.len());
    match behind_whole(text, number, places) {
        Some(rest) => is_pointed(rest, count, trimmed(digits)),
        None => false,
    }
}

fn is_fixed(text: &[u8], number: i128, places: u32) -> bool
    requires { (1 ≤ places) × (places ≤ 15) }
    ensures { result ≡ bytes_eq (decimal_text places number) text.now }
{
    let mut buffer = Buffer::new();
    let digits = buffer
        .format(number.unsigned_abs() % unit_of(places))
        .as_bytes();
    let count = (places as usize).saturating_sub(digits.len());
    match behind_whole(text, number, places) {
        Some(rest) => is_pointed(rest, count, digits),
        None => false,
    }
}

#[tactic(auto, unfolding(crate::specs::Numbers::trimmed_in))]
fn trimmed_number(text: &[u8], places: u32, low: i128, high: i128) -> Option<i128>
    requires { (1 ≤ places) × (places ≤ 15) }
    ensures exact { result ≡ trimmed_in places low high text.now }
{
    let number = read_decimal(text, places, LIMIT).ok()?;
    if low <= number && number <= high && is_trimmed(text, number, places) {
        Some(number)
    } else {
        None
    }
}

#[tactic(auto, unfolding(crate::specs::Numbers::fixed_in))]
fn fixed_number(text: &[u8], places: u32, low: i128, high: i128) -> Option<i128>
    requires { (1 ≤ places) × (places ≤ 15) }
    ensures exact { result ≡ fixed_in places low high text.now }
{
    let number = read_decimal(text, places, LIMIT).ok()?;
    if low <= number && number <= high && is_fixed(text, number, places) {
        Some(number)
    } else {
        None
    }
}

/// The number of units of 10^-`places` from `low` to `high` whose trimmed text this is.
/// Takes no memory.
pub fn read_trimmed(text: &[u8], places: u32, low: i128, high: i128) -> Option<i128>
    requires places { (1 ≤ places) × (places ≤ 15) }
    requires low { neg_ℤ (pos limit) ≤ℤ low }
    requires high { high ≤ℤ pos limit }
    ensures exact { result ≡ trimmed_in places low high text.now }
    ensures found { IfSome result (IsWritten (trimmed_text places) low high text.now) }
    ensures only { (z : ℤ) → IsWritten (trimmed_text places) low high text.now z → result ≡ Some z }
{
    trimmed_number(text, places, low, high)
}

/// The number of units of 10^-`places` from `low` to `high` whose text with all places this is.
/// Takes no memory.
pub fn read_fixed(text: &[u8], places: u32, low: i128, high: i128) -> Option<i128>
    requires places { (1 ≤ places) × (places ≤ 15) }
    requires low { neg_ℤ (pos limit) ≤ℤ low }
    requires high { high ≤ℤ pos limit }
    ensures exact { result ≡ fixed_in places low high text.now }
    ensures found { IfSome result (IsWritten (decimal_text places) low high text.now) }
    ensures only { (z : ℤ) → IsWritten (decimal_text places) low high text.now z → result ≡ Some z }
{
    fixed_number(text, places, low, high)
}

ghost use Rattle.std.specs.Prelude.{◌≡◌, ◌≤◌, ◌+◌, MatchOption, IfSome, OnSome, Some, None, length};
ghost use Rattle.std.specs.List.{prefix_len, list_all};
ghost use Rattle.std.specs.Char.{is_ascii_digit};
ghost use Rattle.ldp_decimal.specs.Grammar.{AreDigits, signed, digits, behind_point, power};
ghost use Rattle.ldp_decimal.specs.Grammar.{exponent, parts, parts_of, value_after};
ghost use Rattle.ldp_decimal.specs.Scanned.{parts_seen, InRange};

/// The parts of a number's text, as they lie in it.
#[derive(Clone, Copy)]
pub struct Scanned<'a> {
    pub negative: bool,
    pub whole: &'a [u8],
    pub fraction: &'a [u8],
    pub raise: u32,
    pub lower: u32,
}

fn after_sign(text: &[u8]) -> (bool, &[u8])
    ensures value { (result.0, result.1.now) ≡ signed text.now }
    ensures shorter { length result.1.now ≤ length text.now }
{
    match text {
        [b'-', rest @ ..] => (true, rest),
        [b'+', rest @ ..] => (false, rest),
        _ => (false, text),
    }
}

fn digit_count(text: &[u8]) -> usize
    ensures count { result ≡ prefix_len is_ascii_digit text.now }
    ensures within { result ≤ length text.now }
{
    text.iter().take_while(|b| b.is_ascii_digit()).count()
}

fn is_all_digits(text: &[u8]) -> bool
    ensures { result ≡ list_all is_ascii_digit text.now }
{
    text.iter().all(|b| b.is_ascii_digit())
}

#[tactic(auto, using(crate::proofs::Digits::front_digits))]
fn after_digits(text: &[u8]) -> (&[u8], &[u8])
    ensures value { (result.0.now, result.1.now) ≡ digits text.now }
    ensures digits { AreDigits result.0.now }
    ensures shorter { length result.0.now + length result.1.now ≤ length text.now }
{
    text.split_at(digit_count(text))
}

fn after_point(text: &[u8]) -> (&[u8], &[u8])
    ensures value { (result.0.now, result.1.now) ≡ behind_point text.now }
    ensures digits { AreDigits result.0.now }
    ensures shorter { length result.0.now + length result.1.now ≤ length text.now }
{
    match text {
        [b'.', rest @ ..] => after_digits(rest),
        _ => (&[], text),
    }
}

/// The number of at most four digits.
fn small_number(digits: &[u8]) -> u32
    requires digits { AreDigits digits.now }
    requires few { length digits.now ≤ 4 }
    ensures value { result ≡ value_after 0 digits.now }
    ensures small { result ≤ 9999 }
{
    let mut number: u32 = 0;
    for digit in digits {
        number = number * 10 + (*digit - b'0') as u32;
    }
    number
}

#[tactic(auto, using(crate::proofs::Digits::all_digits), unfolding(crate::specs::Grammar::power))]
fn power_of(negative: bool, digits: &[u8]) -> Option<(u32, u32)>
    ensures value { result ≡ power negative digits.now }
    ensures small { IfSome result (λ e. (e.0 ≤ 9999) × (e.1 ≤ 9999)) }
{
    if digits.is_empty() || digits.len() > 4 || !is_all_digits(digits) {
        return None;
    }
    let number = small_number(digits);
    Some(if negative { (0, number) } else { (number, 0) })
}

#[tactic(auto, unfolding(crate::specs::Grammar::exponent))]
fn exponent_of(text: &[u8]) -> Option<(u32, u32)>
    ensures value { result ≡ exponent text.now }
    ensures small { IfSome result (λ e. (e.0 ≤ 9999) × (e.1 ≤ 9999)) }
{
    match text {
        [] => Some((0, 0)),
        [b'e' | b'E', rest @ ..] => {
            let (negative, digits) = after_sign(rest);
            power_of(negative, digits)
        }
        _ => None,
    }
}

/// The parts of a text that is in the number grammar.
#[tactic(auto, unfolding(crate::specs::Grammar::parts, crate::specs::Grammar::parts_of, crate::specs::Grammar::with_exponent,))]
pub fn scan(text: &[u8]) -> Option<Scanned<'_>>
    ensures value { MatchOption result (parts text.now ≡ None)
        (λ s. parts text.now ≡ Some (parts_seen s)) }
    ensures range { IfSome result InRange }
{
    if text.len() > 64 {
        return None;
    }
    let (negative, behind_sign) = after_sign(text);
    let (whole, behind_whole) = after_digits(behind_sign);
    let (fraction, behind_fraction) = after_point(behind_whole);
    let (raise, lower) = exponent_of(behind_fraction)?;
    if whole.is_empty() && fraction.is_empty() {
        return None;
    }
    Some(Scanned {
        negative,
        whole,
        fraction,
        raise,
        lower,
    })
}

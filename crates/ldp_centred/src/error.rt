//! Errors, which are never below 0, and operations on those that may be undefined.
ghost use Rattle.std.specs.Prelude.{◌≡◌, option_and_then, IfSome};
ghost use Rattle.ldp_num.specs.Number.{IsNumber};
ghost use Rattle.ldp_num.specs.Plain.{plain_add, plain_mul, plain_div};
ghost use Rattle.ldp_num.specs.Slopes.{of_pair, plus};
ghost use Rattle.ldp_range.specs.Range.{magnitude, pair_high_abs};
ghost use Rattle.ldp_centred.specs.Kept.{IsError};

use ldp_num::{add, div, mul};
use ldp_range::Range;

/// The absolute value.
#[inline(always)]
pub fn size(x: i128) -> i128
    requires { IsNumber x }
    ensures value { result ≡ magnitude x }
    ensures error { IsError result }
{
    if x < 0 { -x } else { x }
}

/// The greatest absolute value in a range.
#[inline(always)]
pub fn greatest_size(range: Range) -> i128
    ensures value { result ≡ pair_high_abs range }
    ensures error { IsError result }
{
    range.high_abs()
}

/// An error times a factor.
#[inline(always)]
pub fn weighed(factor: i128, error: i128) -> Option<i128>
    requires factor { IsError factor }
    requires error { IsError error }
    ensures value { result ≡ plain_mul factor error }
    ensures error { IfSome result IsError }
{
    mul(factor, error)
}

/// The sum of two errors.
#[inline(always)]
pub fn both_errors(e: i128, f: i128) -> Option<i128>
    requires left { IsError e }
    requires right { IsError f }
    ensures value { result ≡ plain_add e f }
    ensures error { IfSome result IsError }
{
    add(e, f)
}

/// The sum of an error and one that may be undefined.
#[inline(always)]
pub fn added(e: i128, x: Option<i128>) -> Option<i128>
    requires first { IsError e }
    requires second { IfSome x IsError }
    ensures value { result ≡ option_and_then (plain_add e) x }
    ensures error { IfSome result IsError }
{
    match x {
        Some(f) => both_errors(e, f),
        None => None,
    }
}

/// The sum of two errors, where both are defined.
#[inline(always)]
pub fn total(x: Option<i128>, y: Option<i128>) -> Option<i128>
    requires left { IfSome x IsError }
    requires right { IfSome y IsError }
    ensures value { result ≡ of_pair plain_add x y }
    ensures error { IfSome result IsError }
{
    match x {
        Some(e) => added(e, y),
        None => None,
    }
}

/// Some units more, where the error is defined.
#[inline(always)]
pub fn more(x: Option<i128>, units: i128) -> Option<i128>
    requires number { IfSome x IsError }
    requires units { IsError units }
    ensures value { result ≡ plus x units }
    ensures error { IfSome result IsError }
{
    match x {
        Some(e) => both_errors(e, units),
        None => None,
    }
}

/// The quotient of an error.
#[inline(always)]
pub fn shared(error: i128, divisor: i128) -> Option<i128>
    requires error { IsError error }
    requires divisor { IsNumber divisor }
    ensures value { result ≡ plain_div error divisor }
    ensures error { IfSome result IsError }
{
    div(error, divisor)
}

/// The quotient of an error that may be undefined.
#[inline(always)]
pub fn share(x: Option<i128>, divisor: i128) -> Option<i128>
    requires error { IfSome x IsError }
    requires divisor { IsNumber divisor }
    ensures value { result ≡ option_and_then (λ n. plain_div n divisor) x }
    ensures error { IfSome result IsError }
{
    match x {
        Some(e) => shared(e, divisor),
        None => None,
    }
}

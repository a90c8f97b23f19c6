ghost use Rattle.std.specs.Prelude.{◌≡◌, ◌*◌, ◌^◌, ◌/◌, ◌<◌, ◌-ℤ◌, ◌≤ℤ◌, pos, negsuc, unsigned_abs};
ghost use Rattle.std.specs.Prelude.{if◌then◌else◌, IfSome};
ghost use Rattle.ldp_num.specs.Number.{IsNumber};
ghost use Rattle.ldp_num.specs.Plain.{floor_div, plain_div};

use crate::exact::{ONE, checked, exact, floor_of, upper};

// 256/99, 64/11 and 140/33 in units of 2^-60, each less by a part in 97: the parabola 140/33 -
// 64/11 x + 256/99 x^2 is within a part in 99 of 1/x from 1/2 to 1, and what is made of it here is
// never above.
const SQUARE: u64 = 2_950_575_629_983_980_193;

const LINEAR: u64 = 6_638_795_167_463_955_435;

const CONSTANT: u64 = 4_840_788_142_942_467_505;

// 10^15 * 2^14
const ONE_RAISED: u64 = 16_384_000_000_000_000_000;

// An estimate of 2^126 / d, for d of at least 2^63: the series of 1 / (1 - e) over the parabola.
// Nothing is claimed of it.
#[inline(always)]
fn reciprocal(d: u64) -> u64 {
    let start = CONSTANT.wrapping_sub(upper(d, LINEAR.wrapping_sub(upper(d, SQUARE)))) << 2;
    let e = 0x4000_0000_0000_0000_u64.wrapping_sub(upper(d, start)) << 2;
    let e2 = upper(e, e);
    let e4 = upper(e2, e2);
    let e8 = upper(e4, e4);
    let second = start.wrapping_add(upper(start, e));
    let fourth = second.wrapping_add(upper(second, e2));
    let eighth = fourth.wrapping_add(upper(fourth, e4));
    eighth.wrapping_add(upper(eighth, e8))
}

// An estimate of a * 10^15 / b, of which nothing is claimed but its size.
#[inline(always)]
fn estimate(a: u64, b: u64) -> u64
    ensures { result < 2 ^ 63 }
{
    let zeros = b.leading_zeros() & 63;
    let scale = upper(ONE_RAISED, reciprocal(b << zeros));
    (((a as u128 * scale as u128) >> (76 - zeros)) & 0x7FFF_FFFF_FFFF_FFFF) as u64
}

// n / d where that is q or one more.
#[inline(always)]
#[tactic(auto, using(crate::proofs::Quotients::quotients))]
fn quotient_near(n: u128, d: u64, q: u64) -> Option<u64>
    requires { q < 2 ^ 63 }
    ensures { IfSome result (λ k. k ≡ n / d) }
{
    let product = q as u128 * d as u128;
    if n < product {
        return None;
    }
    let rest = n - product;
    if 2 * d as u128 <= rest {
        return None;
    }
    Some(q + (d as u128 <= rest) as u64)
}

// z, or where it is below 0 the natural number as far below -1: a floor turns with it.
#[inline(always)]
fn mirrored(z: i128, negative: bool) -> i128
    ensures { result ≡ (if negative then negsuc 0 -ℤ z else z) }
{
    if negative { -1 - z } else { z }
}

// z / d, rounded down, where its distance from 0 is near q.
#[inline(always)]
fn floor_near(z: i128, d: u64, q: u64) -> Option<i128>
    requires { q < 2 ^ 63 }
    ensures { IfSome result (λ k. k ≡ floor_div z d) }
{
    let negative = z < 0;
    let quotient = quotient_near(mirrored(z, negative) as u128, d, q)?;
    Some(mirrored(quotient as i128, negative))
}

#[inline(always)]
fn magnitude(a: i128) -> u64
    requires { IsNumber a }
    ensures { result ≡ unsigned_abs a }
{
    a.unsigned_abs() as u64
}

/// The quotient, in units of 10^-15, rounded down, for a divisor above 0.
#[inline(always)]
pub fn div(a: i128, b: i128) -> Option<i128>
    requires left { IsNumber a }
    requires right { IsNumber b }
    ensures value { result ≡ plain_div a b }
    ensures number { IfSome result IsNumber }
{
    if b <= 0 {
        return None;
    }
    let divisor = magnitude(b);
    match floor_near(exact(a, ONE), divisor, estimate(magnitude(a), divisor)) {
        Some(quotient) => checked(quotient),
        None => wide_quotient(a, b),
    }
}

// The same where the estimate is too far off.
#[cold]
#[inline(never)]
fn wide_quotient(a: i128, b: i128) -> Option<i128>
    requires left { IsNumber a }
    requires right { IsNumber b }
    requires above { pos 1 ≤ℤ b }
    ensures value { result ≡ plain_div a b }
    ensures number { IfSome result IsNumber }
{
    checked(floor_of(exact(a, ONE), b))
}

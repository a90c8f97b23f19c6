ghost use Rattle.std.specs.Prelude.{◌≡◌, ◌+◌, ◌*◌, ◌^◌, ◌/◌, ◌<◌, ◌+ℤ◌, ◌*ℤ◌, pos, IfSome};
ghost use Rattle.ldp_num.specs.Number.{IsNumber, one};
ghost use Rattle.ldp_num.specs.Plain.{plain_mul, plain_sq};

use crate::exact::{self, checked, exact, floor_of};

/// The units that make one.
const ONE: u64 = exact::ONE as u64;

/// 2^112 / 10^15, rounded down.
const INVERSE: u64 = 5_192_296_858_534_827_628;

/// 2^61 whole units of a product: with them added, the products of a formula are natural.
const BIAS: i128 = 2_305_843_009_213_693_952_000_000_000_000_000;

/// 2^61.
const OFFSET: i128 = 2_305_843_009_213_693_952;

// (high * 2^64 + low) / 10^15, rounded down: a multiplication by the reciprocal gives it or one
// less.
#[inline(always)]
fn units(high: u64, low: u64) -> u64
    requires { high < 2 ^ 48 }
    ensures { result ≡ (high * 2 ^ 64 + low) / one }
{
    let top = high * 0x1_0000 + (low >> 48);
    let estimate = ((top as u128 * INVERSE as u128) >> 64) as u64;
    let rest = low.wrapping_sub(estimate.wrapping_mul(ONE));
    if rest >= ONE { estimate + 1 } else { estimate }
}

#[inline(always)]
fn biased(a: i128, b: i128) -> i128
    requires left { IsNumber a }
    requires right { IsNumber b }
    ensures { result ≡ (a *ℤ b) +ℤ pos 2305843009213693952000000000000000 }
{
    a * b + BIAS
}

/// The product, in units of 10^-15, rounded down.
#[inline(always)]
#[tactic(auto, using(crate::proofs::Floors::floors))]
pub fn mul(a: i128, b: i128) -> Option<i128>
    requires left { IsNumber a }
    requires right { IsNumber b }
    ensures value { result ≡ plain_mul a b }
    ensures number { IfSome result IsNumber }
{
    let shifted = biased(a, b);
    if 0 <= shifted {
        let natural = shifted as u128;
        let high = (natural >> 64) as u64;
        if high < 0x1_0000_0000_0000 {
            let low = (natural & 0xFFFF_FFFF_FFFF_FFFF) as u64;
            return Some(units(high, low) as i128 - OFFSET);
        }
    }
    wide_product(a, b)
}

// The same for products beyond some 2 * 10^18 units, which do not fit the form above.
#[cold]
#[inline(never)]
fn wide_product(a: i128, b: i128) -> Option<i128>
    requires left { IsNumber a }
    requires right { IsNumber b }
    ensures value { result ≡ plain_mul a b }
    ensures number { IfSome result IsNumber }
{
    checked(floor_of(exact(a, b), exact::ONE))
}

/// The square, in units of 10^-15, rounded down.
#[inline(always)]
pub fn sq(a: i128) -> Option<i128>
    requires { IsNumber a }
    ensures value { result ≡ plain_sq a }
    ensures number { IfSome result IsNumber }
{
    mul(a, a)
}

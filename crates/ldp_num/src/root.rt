ghost use Rattle.std.specs.Prelude.{◌≡◌, ◌^◌, ◌<◌, ◌≤ℤ◌, pos, IfSome};
ghost use Rattle.ldp_num.specs.Number.{IsNumber};
ghost use Rattle.ldp_num.specs.Plain.{plain_sqrt};
ghost use Rattle.ldp_num.specs.Root.{root};

use crate::exact::{ONE, checked, exact, upper};

// The parabola c - b x + a x^2 that is within a part in 41 of 1 / sqrt(x) from 1/4 to 1: a, b, c in
// units of 2^-60.
const SQUARE: u64 = 1_889_140_094_795_241_984;

const LINEAR: u64 = 3_787_758_263_883_137_536;

const CONSTANT: u64 = 3_079_263_555_549_752_832;

// 3 * 2^60
const THREE: u64 = 3_458_764_513_820_540_928;

// A step of Newton's method for 2^94 / sqrt(m), for m of at least 2^62.
#[inline(always)]
fn nearer(m: u64, y: u64) -> u64 {
    upper(y, THREE.wrapping_sub(upper(upper(m, y), y))) << 3
}

// An estimate of 2^94 / sqrt(m), for m of at least 2^62. Nothing is claimed of it.
#[inline(always)]
fn inverse_root(m: u64) -> u64 {
    let start = CONSTANT.wrapping_sub(upper(m, LINEAR.wrapping_sub(upper(m, SQUARE)))) << 2;
    nearer(m, nearer(m, nearer(m, nearer(m, start))))
}

// An estimate of the root of n, of which nothing is claimed but its size.
#[inline(always)]
fn estimate(n: u128) -> u64
    ensures { result < 2 ^ 62 }
{
    let zeros = n.leading_zeros() & 126;
    let m = ((n << zeros) >> 64) as u64;
    (upper(m, inverse_root(m)) >> (zeros / 2).saturating_sub(2)) & 0x3FFF_FFFF_FFFF_FFFF
}

// The root of n where it is w or one more.
#[inline(always)]
#[tactic(auto, using(crate::proofs::Roots::roots))]
fn root_near(n: u128, w: u64) -> Option<u64>
    requires { w < 2 ^ 62 }
    ensures { IfSome result (λ r. r ≡ root n) }
{
    let square = w as u128 * w as u128;
    if n < square {
        return None;
    }
    let rest = n - square;
    if 4 * w as u128 + 4 <= rest {
        return None;
    }
    Some(w + (2 * (w as u128) < rest) as u64)
}

/// The square root, in units of 10^-15, rounded down, for a number of at least 0.
#[inline(always)]
pub fn sqrt(a: i128) -> Option<i128>
    requires { IsNumber a }
    ensures value { result ≡ plain_sqrt a }
    ensures number { IfSome result IsNumber }
{
    if a < 0 {
        return None;
    }
    let n = exact(a, ONE) as u128;
    match root_near(n, estimate(n)) {
        Some(root) => checked(root as i128),
        None => wide_root(a),
    }
}

// The same where the estimate is too far off.
#[cold]
#[inline(never)]
#[tactic(auto, using(crate::proofs::Roots::roots))]
fn wide_root(a: i128) -> Option<i128>
    requires number { IsNumber a }
    requires above { pos 0 ≤ℤ a }
    ensures value { result ≡ plain_sqrt a }
    ensures number { IfSome result IsNumber }
{
    let root = (exact(a, ONE) as u128).isqrt();
    checked(root as i128)
}

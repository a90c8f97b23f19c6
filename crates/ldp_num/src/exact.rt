ghost use Rattle.std.specs.Prelude.{◌≡◌, ◌*◌, ◌/◌, ◌^◌, ◌≤ℤ◌, ◌*ℤ◌, pos, unsigned_abs, IfSome};
ghost use Rattle.ldp_num.specs.Number.{IsNumber, number};
ghost use Rattle.ldp_num.specs.Plain.{floor_div};

/// The units that make one.
pub const ONE: i128 = 1_000_000_000_000_000;

/// The greatest number, in units of 10^-15.
pub const LIMIT: i128 = 10_000_000_000_000_000_000;

/// z where it is a number.
#[inline(always)]
pub fn checked(z: i128) -> Option<i128>
    ensures value { result ≡ number z }
    ensures number { IfSome result IsNumber }
{
    if -LIMIT <= z && z <= LIMIT {
        Some(z)
    } else {
        None
    }
}

/// The whole product, unrounded.
#[inline(always)]
pub fn exact(a: i128, b: i128) -> i128
    requires left { IsNumber a }
    requires right { IsNumber b }
    ensures { result ≡ a *ℤ b }
{
    a * b
}

/// z / d, rounded down.
#[inline(always)]
pub fn floor_of(z: i128, d: i128) -> i128
    requires { pos 1 ≤ℤ d }
    ensures { result ≡ floor_div z (unsigned_abs d) }
{
    z.div_euclid(d)
}

/// The upper half of a product.
#[inline(always)]
pub fn upper(a: u64, b: u64) -> u64
    ensures { result ≡ (a * b) / 2 ^ 64 }
{
    ((a as u128 * b as u128) >> 64) as u64
}

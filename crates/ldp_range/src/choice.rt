ghost use Rattle.std.specs.Prelude.{◌≡◌, ◌≤ℤ◌, ◌-ℤ◌, int_le, pos, unsigned_abs, IfSome};
ghost use Rattle.std.specs.Prelude.{if◌then◌else◌};
ghost use Rattle.std.specs.Int.{int_min, int_max};
ghost use Rattle.ldp_num.specs.Number.{IsNumber};
ghost use Rattle.ldp_range.specs.Choice.{of_both};

/// The first where x is at least 0, the second where it is below.
#[inline(always)]
pub fn by_sign(x: i128, a: i128, b: i128) -> i128
    requires first { IsNumber a }
    requires second { IsNumber b }
    ensures value { result ≡ (if int_le (pos 0) x then a else b) }
    ensures number { IsNumber result }
{
    if 0 <= x { a } else { b }
}

/// The lesser of two numbers.
#[inline(always)]
pub fn lesser(a: i128, b: i128) -> i128
    requires left { IsNumber a }
    requires right { IsNumber b }
    ensures value { result ≡ int_min a b }
    ensures number { IsNumber result }
    ensures left { result ≤ℤ a }
    ensures right { result ≤ℤ b }
{
    if b < a { b } else { a }
}

/// The greater of two numbers.
#[inline(always)]
pub fn greater(a: i128, b: i128) -> i128
    requires left { IsNumber a }
    requires right { IsNumber b }
    ensures value { result ≡ int_max a b }
    ensures number { IsNumber result }
    ensures left { a ≤ℤ result }
    ensures right { b ≤ℤ result }
{
    if b < a { a } else { b }
}

/// The lesser of two values, where both are defined.
#[inline(always)]
pub fn least_of(a: Option<i128>, b: Option<i128>) -> Option<i128>
    requires left { IfSome a IsNumber }
    requires right { IfSome b IsNumber }
    ensures value { result ≡ of_both int_min a b }
    ensures number { IfSome result IsNumber }
{
    match (a, b) {
        (Some(x), Some(y)) => Some(lesser(x, y)),
        _ => None,
    }
}

/// The greater of two values, where both are defined.
#[inline(always)]
pub fn greatest_of(a: Option<i128>, b: Option<i128>) -> Option<i128>
    requires left { IfSome a IsNumber }
    requires right { IfSome b IsNumber }
    ensures value { result ≡ of_both int_max a b }
    ensures number { IfSome result IsNumber }
{
    match (a, b) {
        (Some(x), Some(y)) => Some(greater(x, y)),
        _ => None,
    }
}

/// The absolute value.
#[inline(always)]
pub fn magnitude(x: i128) -> i128
    requires { IsNumber x }
    ensures value { result ≡ pos (unsigned_abs x) }
    ensures number { IsNumber result }
{
    if x < 0 { -x } else { x }
}

/// The number on the other side of 0, as far from it.
#[inline(always)]
pub fn opposite(x: i128) -> i128
    requires { IsNumber x }
    ensures value { result ≡ pos 0 -ℤ x }
    ensures number { IsNumber result }
{
    -x
}

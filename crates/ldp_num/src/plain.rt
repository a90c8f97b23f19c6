ghost use Rattle.std.specs.Prelude.{◌≡◌, IfSome};
ghost use Rattle.ldp_num.specs.Number.{IsNumber};
ghost use Rattle.ldp_num.specs.Plain.{plain_add, plain_sub, plain_need};

use crate::exact::checked;

/// The sum, in units of 10^-15.
#[inline(always)]
pub fn add(a: i128, b: i128) -> Option<i128>
    requires left { IsNumber a }
    requires right { IsNumber b }
    ensures value { result ≡ plain_add a b }
    ensures number { IfSome result IsNumber }
{
    checked(a + b)
}

/// The difference, in units of 10^-15.
#[inline(always)]
pub fn sub(a: i128, b: i128) -> Option<i128>
    requires left { IsNumber a }
    requires right { IsNumber b }
    ensures value { result ≡ plain_sub a b }
    ensures number { IfSome result IsNumber }
{
    checked(a - b)
}

/// The number itself where it is at least 0: how a formula states its domain.
#[inline(always)]
pub fn need(a: i128) -> Option<i128>
    requires { IsNumber a }
    ensures value { result ≡ plain_need a }
    ensures number { IfSome result IsNumber }
{
    if a < 0 { None } else { Some(a) }
}

ghost use Rattle.std.specs.Prelude.{◌≡◌, ◌≤◌, ◌^◌, ◌<◌};

/// The power of ten with this exponent.
pub fn power_of_ten(exponent: u32) -> u128
    requires { exponent ≤ 19 }
    ensures value { result ≡ 10 ^ exponent }
    ensures small { result ≤ 10000000000000000000 }
    ensures positive { 0 < result }
{
    10u128.pow(exponent)
}

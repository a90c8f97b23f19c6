ghost use Rattle.std.specs.Prelude.{◌≡◌, ◌≤◌, ◌≤ℤ◌, pos, neg_ℤ, IfOk};
ghost use Rattle.ldp_num.specs.Number.{limit};
ghost use Rattle.ldp_quantity.specs.Between.{number_from_to, IsBetween};

use crate::unfit::Unfit;
use ldp_decimal::{NumFault, read_decimal};
use ldp_num::LIMIT;

/// The number of a decimal text in units of 10^-`places`, rounded half away from zero, if it lies
/// from `low` to `high`. Takes no memory.
pub fn read_between(text: &[u8], places: u32, low: i128, high: i128) -> Result<i128, Unfit>
    requires places { places ≤ 15 }
    requires low { neg_ℤ (pos limit) ≤ℤ low }
    requires high { high ≤ℤ pos limit }
    ensures value { result ≡ number_from_to places low high text.now }
    ensures range { IfOk result (IsBetween low high) }
{
    match read_decimal(text, places, LIMIT) {
        Ok(n) if low <= n && n <= high => Ok(n),
        Ok(_) => Err(Unfit::OutOfRange),
        Err(NumFault::TooLarge { negative: _ }) => Err(Unfit::OutOfRange),
        Err(NumFault::NotANumber) => Err(Unfit::NotANumber),
    }
}

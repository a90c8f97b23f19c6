ghost use Rattle.std.specs.Prelude.{◌≡◌, ◌≤◌, ◌≤ℤ◌, pos, unsigned_abs, IfOk};
ghost use Rattle.ldp_decimal.specs.Fraction.{with_sign};
ghost use Rattle.ldp_decimal.specs.Reading.{decimal_of};

use crate::fault::NumFault;
use crate::round::magnitude_within;
use crate::scan::scan;

fn signed(negative: bool, magnitude: u128) -> i128
    requires { magnitude ≤ 10000000000000000000 }
    ensures { result ≡ with_sign negative magnitude }
{
    if negative {
        -(magnitude as i128)
    } else {
        magnitude as i128
    }
}

/// The number of a text in units of 10^-`places`, rounded half away from zero. Takes no memory.
pub fn read_decimal(text: &[u8], places: u32, limit: i128) -> Result<i128, NumFault>
    requires places { places ≤ 15 }
    requires limit_low { pos 0 ≤ℤ limit }
    requires limit_high { limit ≤ℤ pos 10000000000000000000 }
    ensures value { result ≡ decimal_of places (unsigned_abs limit) text.now }
    ensures within { IfOk result (λ z. unsigned_abs z ≤ unsigned_abs limit) }
{
    let Some(scanned) = scan(text) else {
        return Err(NumFault::NotANumber);
    };
    match magnitude_within(&scanned, places, limit.unsigned_abs()) {
        Some(magnitude) => Ok(signed(scanned.negative, magnitude)),
        None => Err(NumFault::TooLarge {
            negative: scanned.negative,
        }),
    }
}

ghost use Rattle.std.specs.Prelude.{◌≡◌, IfOk};
ghost use Rattle.ldp_tokens.specs.Seen.{seen};
ghost use Rattle.ldp_heights.specs.Grid.{IsHeight};
ghost use Rattle.ldp_heights.specs.Reading.{height_of};
ghost use Rattle.ldp_heights.specs.Seen.{class_seen};

use crate::class::{Class, class_of};
use crate::fault::HeightFault;
use ldp_tokens::Token;

/// A height in millimetres, or None where its class is the missing one.
#[tactic(auto, unfolding(crate::specs::Reading::height_of))]
pub fn read_height(missing: Class, token: &Token<'_>) -> Result<Option<i32>, HeightFault>
    ensures value { result ≡ height_of (class_seen missing) (seen token.now) }
    ensures range { IfOk result IsHeight }
{
    let class = class_of(token.bytes).ok_or(HeightFault::BadNumber(token.place))?;
    if class.is_same(missing) {
        return Ok(None);
    }
    match class {
        Class::Millimetres(millimetres) => Ok(Some(millimetres)),
        Class::Nan => Err(HeightFault::BadNumber(token.place)),
        Class::TooHigh => Err(HeightFault::OutOfRange(token.place)),
        Class::TooLow => Err(HeightFault::OutOfRange(token.place)),
    }
}

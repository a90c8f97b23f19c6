ghost use Rattle.std.specs.Prelude.{◌≡◌, ◌≤◌, ◌≤ℤ◌, ◌*ℤ◌, pos, option_map, IfOk};
ghost use Rattle.std.specs.Result.{result_map_both};
ghost use Rattle.toml.specs.View.{view};
ghost use Rattle.ldp_design.specs.KeyRanges.{range_of, IsInKeyRange};
ghost use Rattle.ldp_grids.specs.Numbers.{needed, text_of, in_range, number_of, step_of, count_of};

use crate::fault::{GridFault, Part};
use crate::place::Place;
use ldp_decimal::{NumFault, read_decimal};
use ldp_design::{Kind, range_of};
use ldp_quantity::{Unfit, read_between};
use toml::Value;

/// The most values of an axis.
const MOST_VALUES: i64 = 100_000;

/// A value of a key, from the string that stands in one of its parts.
#[tactic(auto, unfolding(crate::specs::Numbers::number_of, ldp_quantity::specs::Between::number_from_to))]
pub fn read_number(at: Place, kind: Kind, part: Part, value: &Value) -> Result<i128, GridFault>
    ensures value { result ≡ number_of at.family kind at.key part (view value.now) }
    ensures range { IfOk result (IsInKeyRange (range_of at.key kind)) }
{
    let text = read_text(at, part, value)?;
    let range = range_of(at.key, kind);
    match read_between(text.as_bytes(), range.places, range.low, range.high) {
        Ok(n) => in_range(at, kind, part, n),
        Err(Unfit::NotANumber) => Err(at.bad_value(part)),
        Err(Unfit::OutOfRange) => Err(at.out_of_range(part)),
    }
}

/// A number that the key may have.
pub fn in_range(at: Place, kind: Kind, part: Part, n: i128) -> Result<i128, GridFault>
    ensures value { result ≡ in_range at.family kind at.key part n }
    ensures range { IfOk result (IsInKeyRange (range_of at.key kind)) }
{
    if range_of(at.key, kind).has(n) {
        Ok(n)
    } else {
        Err(at.out_of_range(part))
    }
}

/// The step of an axis.
#[tactic(auto, unfolding(crate::specs::Numbers::step_of, ldp_decimal::specs::Reading::decimal_of))]
pub fn read_step(at: Place, kind: Kind, value: &Value) -> Result<i128, GridFault>
    ensures value { result ≡ step_of at.family kind at.key (view value.now) }
    ensures low { IfOk result (λ n. pos 1 ≤ℤ n) }
    ensures high { IfOk result (λ n. n ≤ℤ (pos 10 *ℤ (range_of at.key kind).high)) }
{
    let text = read_text(at, Part::Step, value)?;
    let range = range_of(at.key, kind);
    match read_decimal(text.as_bytes(), range.places, 10 * range.high) {
        Ok(n) if n > 0 => Ok(n),
        Ok(_) => Err(at.step_not_positive()),
        Err(NumFault::TooLarge { negative: true }) => Err(at.step_not_positive()),
        Err(NumFault::TooLarge { negative: false }) => Err(at.out_of_range(Part::Step)),
        Err(NumFault::NotANumber) => Err(at.bad_value(Part::Step)),
    }
}

/// The number of values of an axis.
#[tactic(auto, unfolding(crate::specs::Numbers::count_of))]
pub fn read_count(at: Place, value: &Value) -> Result<u32, GridFault>
    ensures value { result ≡ count_of at.family at.key (view value.now) }
    ensures low { IfOk result (λ n. 1 ≤ n) }
    ensures high { IfOk result (λ n. n ≤ 100_000) }
{
    let Some(n) = value.as_integer() else {
        return Err(at.bad_value(Part::Count));
    };
    if 1 <= n && n <= MOST_VALUES {
        Ok(n as u32)
    } else {
        Err(at.out_of_range(Part::Count))
    }
}

/// The value of a key that may not be left out.
pub fn needed<'a>(at: Place, part: Part, found: Option<&'a Value>) -> Result<&'a Value, GridFault>
    ensures { result_map_both (λ value. view value.now) (λ fault. fault) result
        ≡ needed at.family at.key part (option_map (λ value. view value.now) found.entry) }
{
    match found {
        Some(value) => Ok(value),
        None => Err(at.missing_key(part)),
    }
}

/// The text of a value that is a string.
pub fn read_text<'a>(at: Place, part: Part, value: &'a Value) -> Result<&'a str, GridFault>
    ensures { result_map_both (λ text. text.now) (λ fault. fault) result
        ≡ text_of at.family at.key part (view value.now) }
{
    match value.as_str() {
        Some(text) => Ok(text),
        None => Err(at.bad_value(part)),
    }
}

ghost use Rattle.std.specs.Prelude.{◌≡◌, option_map, IfSome};
ghost use Rattle.ldp_heights.specs.Classes.{is_nan, class_of, same_class};
ghost use Rattle.ldp_heights.specs.Ranges.{IsClass};
ghost use Rattle.ldp_heights.specs.Seen.{class_seen};

use ldp_decimal::{NumFault, read_decimal};

/// What the text of a height stands for.
#[derive(Clone, Copy)]
pub enum Class {
    Nan,
    /// At most 10^8 in absolute value.
    Millimetres(i32),
    TooHigh,
    TooLow,
}

impl Class {
    /// Whether both are one class; two numbers are if their millimetres are equal.
    pub fn is_same(self, other: Class) -> bool
        ensures { result ≡ same_class (class_seen self) (class_seen other) }
    {
        match (self, other) {
            (Class::Nan, Class::Nan) => true,
            (Class::Millimetres(n), Class::Millimetres(m)) => n == m,
            (Class::TooHigh, Class::TooHigh) => true,
            (Class::TooLow, Class::TooLow) => true,
            _ => false,
        }
    }
}

/// The most millimetres of a height, in absolute value.
const HIGHEST: i128 = 100_000_000;

/// The class of a text, or None where it is neither `nan` nor a number.
#[tactic(auto, unfolding(crate::specs::Classes::class_of))]
pub fn class_of(bytes: &[u8]) -> Option<Class>
    ensures value { option_map class_seen result ≡ class_of bytes.now }
    ensures range { IfSome result (λ class. IsClass (class_seen class)) }
{
    if is_nan(bytes) {
        return Some(Class::Nan);
    }
    match read_decimal(bytes, 3, HIGHEST) {
        Ok(millimetres) => Some(Class::Millimetres(millimetres as i32)),
        Err(NumFault::TooLarge { negative: false }) => Some(Class::TooHigh),
        Err(NumFault::TooLarge { negative: true }) => Some(Class::TooLow),
        Err(NumFault::NotANumber) => None,
    }
}

/// `nan` in any case.
pub fn is_nan(bytes: &[u8]) -> bool
    ensures { result ≡ is_nan bytes.now }
{
    bytes.eq_ignore_ascii_case(b"nan")
}

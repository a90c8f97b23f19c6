/// Why a text gives no number of a range.
#[derive(Clone, Copy, Debug, PartialEq, Eq)]
pub enum Unfit {
    /// The text is not in the number grammar.
    NotANumber,
    /// The rounded number lies outside the range.
    OutOfRange,
}

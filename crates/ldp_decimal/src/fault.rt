/// Why a text gives no number.
#[derive(Clone, Copy, Debug, PartialEq, Eq)]
pub enum NumFault {
    /// The text is not in the number grammar.
    NotANumber,
    /// The rounded absolute value is above the limit.
    TooLarge { negative: bool },
}

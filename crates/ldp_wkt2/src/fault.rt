/// Why a text is not read.
#[derive(Clone, Copy, Debug, PartialEq, Eq)]
pub enum CrsFault {
    /// Where the first piece begins that does not fit, in bytes from the start of the text.
    NotThisProfile(usize),
}

/// The forms in which a table is printed.
#[derive(Clone, Copy, Debug, PartialEq, Eq)]
pub enum TableForm {
    /// Lines of words.
    Lines,
    /// One JSON object (RFC 8259) in a line.
    Json,
}

use crate::header::Header;
use crate::header_word::HeaderWord;
use crate::layout::Layout;

/// What comes next in a text.
#[derive(Clone, Copy)]
pub enum Stage {
    /// A word of the header, after those that were met.
    Word(Header),
    /// The value of this word.
    Value(Header, HeaderWord),
    /// A height, after the whole header.
    Height(Layout),
}

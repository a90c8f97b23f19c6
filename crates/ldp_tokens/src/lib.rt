//! The tokens of a text: its longest runs of bytes that are no white space and no sign, and each
//! sign alone, each with its place.
//!
//! White space is space, tab, line feed and carriage return; which bytes are signs, the caller
//! says.
#![tactic(auto)]

mod mark;
mod tokens;

pub use mark::skip_mark;
pub use tokens::{Token, Tokens};

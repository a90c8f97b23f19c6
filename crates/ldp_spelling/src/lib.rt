//! Texts of one spelling: lines and words, and numbers that are read only as they are written.
#![tactic(auto)]

mod cut;
mod decimal;
mod hash;
pub mod laws;
mod lines;
mod push;
mod whole;
mod words;

pub use decimal::{read_fixed, read_trimmed};
pub use hash::{hash_digits, read_hash};
pub use lines::Lines;
pub use push::{push_fixed, push_trimmed, push_whole};
pub use whole::{is_whole, read_whole};
pub use words::Words;

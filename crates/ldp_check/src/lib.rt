//! The checker: whether a certificate shows that its design has the least cost. It stands on no
//! search, and asks nothing of the certificate's forest but that it is well shaped.
#![tactic(auto)]

mod checker;
mod entry;
mod input;
pub mod laws;
mod leaf;
mod number;
mod printed;
mod reason;
mod report;
mod stack;
mod verdict;
mod walk;

pub use checker::{check, check_in};
pub use input::other_input;
pub use reason::Reason;
pub use report::report_of;
pub use stack::Stack;
pub use std::alloc::AllocError as Memory;
pub use verdict::Verdict;

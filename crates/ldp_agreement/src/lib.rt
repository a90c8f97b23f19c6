//! What the search finds, the checker accepts.
#![tactic(auto)]

pub mod laws;

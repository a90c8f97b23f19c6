//! The best design of a problem and the canonical forest that shows it: definitions, and the laws
//! that a search and whoever accepts its forest stand on.
#![tactic(auto)]

pub mod laws;

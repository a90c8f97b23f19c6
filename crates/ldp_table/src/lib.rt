//! The distortions of a design at the cells of a zone as a table, in text and in JSON.
#![tactic(auto)]

mod band;
mod object;
mod row;
mod table;

pub use object::table_json;
pub use std::alloc::AllocError as Memory;
pub use table::table_text;

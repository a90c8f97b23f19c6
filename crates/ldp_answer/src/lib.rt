//! What each command answers over values that were read: a text, or why there is none.
//!
//! Nothing here reads a file or writes one.
#![tactic(auto)]

mod answer;
mod cells;
mod central;
mod check;
mod design;
mod eval;
mod eval_text;
mod fault;
mod form;
pub mod laws;
mod rejection;
mod sample;
mod sample_cells;
mod sample_family;
mod sample_grid;
mod table;
mod upgrade;
mod wkt;

pub use answer::Answer;
pub use cells::cells_over;
pub use central::Central;
pub use check::check_over;
pub use design::design_over;
pub use eval::eval_over;
pub use fault::WorkFault;
pub use form::TableForm;
pub use sample::sample_over;
pub use table::table_over;
pub use upgrade::upgrade_over;
pub use wkt::wkt_over;

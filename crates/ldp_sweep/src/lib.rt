//! What is told of the values at numbered cells: the greatest, the first cell that has it, and how
//! many are above a tolerance; or the first cell where the value is undefined. The cells are cut
//! into stretches, and a stretch is passed over whole where the span of its values shows that none
//! of its cells changes the answer.
#![tactic(auto)]

mod enclosure;
mod hints;
mod peak;
mod stretch;
mod sweep;
mod tally;
mod tree;
mod undefined;

pub use enclosure::Enclosure;
pub use peak::Peak;
pub use std::alloc::AllocError as Memory;
pub use stretch::Stretch;
pub use sweep::Sweep;
pub use tally::{Tally, tally_of};
pub use tree::nodes_of;
pub use undefined::Undefined;

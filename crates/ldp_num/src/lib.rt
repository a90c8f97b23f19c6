//! Fixed-point numbers, the carriers that run a formula, and the runs of a list of steps.
//!
//! A number is a whole n, at most 10^19 in absolute value, that stands for n / 10^15.
#![tactic(auto)]

mod bench;
mod carrier;
mod exact;
mod fix;
pub mod laws;
mod plain;
mod product;
mod quotient;
mod root;
mod step;
mod units;

pub use bench::Bench;
pub use carrier::Num;
pub use exact::{LIMIT, ONE};
pub use fix::Fix;
pub use plain::{add, need, sub};
pub use product::{mul, sq};
pub use quotient::div;
pub use root::sqrt;
pub use std::alloc::AllocError as Memory;
pub use step::{MOST_INPUTS, MOST_RESULTS, MOST_STEPS, Step};
pub use units::{eta, radians};

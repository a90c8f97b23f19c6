//! Families of designs, the boxes that a search goes over, and the forest that it leaves.
#![tactic(auto)]

mod axis;
mod design;
mod design_box;
mod family;
mod forest;
mod grids;
mod inputs;
mod key;
mod key_range;
pub mod laws;
mod limits;
mod measure;
mod node;
mod parts;
mod rule;
mod words;

pub use axis::{Axis, AxisName};
pub use design::{Design, order};
pub use design_box::{DesignBox, Span, cut, is_single};
pub use family::{Family, Kind};
pub use forest::Forest;
pub use grids::{Grids, admits, whole};
pub use inputs::{Inputs4, inputs_at, inputs_of};
pub use key::Key;
pub use key_range::{GREATEST_AZIMUTH, KeyRange, LEAST_AZIMUTH, range_of};
pub use limits::{MOST_BUDGET, MOST_FAMILIES, MOST_NODES, MOST_TOLERANCE};
pub use node::Node;
pub use parts::{cut_for, split};
pub use rule::Rule;
pub use std::alloc::AllocError as Memory;
pub use words::{axis_named, axis_text, key_text, kind_named, kind_text};

use crate::names::Names;
use crate::report::Report;
use crate::share::Share;
use ldp_design::{Design, Forest};

/// A certificate: a design, its cost, and the forest that shows that no design has a lower one.
#[derive(Drop)]
pub struct Job {
    /// The files that it speaks of; None in a text of version 1.
    pub names: Option<Names>,
    pub design: Design,
    /// The worst absolute distortion, in 10^-15.
    pub worst: i128,
    /// Some where the cells beyond a tolerance count first.
    pub share: Option<Share>,
    pub report: Report,
    pub forest: Forest,
}

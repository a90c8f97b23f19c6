ghost use Rattle.std.specs.Prelude.{◌≡◌, ◌<◌, ℕ, pos, is_some, option_map};
ghost use Rattle.ldp_design.specs.Boxes.{LiesIn};
ghost use Rattle.ldp_design.specs.Designs.{IsAdmitted};
ghost use Rattle.ldp_problem.specs.Problem.{Problem, IsSound};
ghost use Rattle.ldp_problem.specs.Costs.{bound_of, cost_of, count_up};

use crate::bound::Bound;
use crate::cost::Cost;
use ldp_design::{Design, DesignBox};

/// Who knows the distortion of designs at cells, and bounds it over boxes of designs. No call
/// takes memory, and none changes the problem. Cells are numbered from 0.
pub trait Bounds {
    /// The families, the number of cells, the tolerance, the least absolute distortion of a box
    /// at a cell, and the absolute distortion of a design at a cell.
    ghost problem: { Self → Problem };

    /// How many of the calls `bound`, `lower`, `defined` and `cost` were made, up to 2^64 - 1.
    ghost times: { Self → ℕ };

    /// The number of cells, at least 1.
    fn cells(&self) -> u32
        ensures value { result ≡ (problem self.now).cells }
        ensures some { 0 < result };

    /// The distortion, in units of 10^-15, beyond which cells are counted.
    fn tolerance(&self) -> Option<i128>
        ensures { result ≡ option_map pos (problem self.now).tolerance };

    fn bound(&mut self, b: &DesignBox) -> Bound
        requires { LiesIn (problem self.old).families b.now }
        ensures value { result ≡ bound_of (problem self.old) b.now }
        ensures same { problem self.new ≡ problem self.old }
        ensures asked { times self.new ≡ count_up (times self.old) };

    /// The least absolute distortion that a design of the box can have at a cell, in units of
    /// 10^-15, as far as it is known.
    fn lower(&mut self, b: &DesignBox, cell: u32) -> i128
        requires lies { LiesIn (problem self.old).families b.now }
        requires cell { cell < (problem self.old).cells }
        ensures value { result ≡ pos ((problem self.old).lower b.now cell) }
        ensures same { problem self.new ≡ problem self.old }
        ensures asked { times self.new ≡ count_up (times self.old) };

    /// Is the distortion of a design defined at a cell?
    fn defined(&mut self, d: &Design, cell: u32) -> bool
        requires admitted { IsAdmitted (problem self.old).families d.now }
        requires cell { cell < (problem self.old).cells }
        ensures value { result ≡ is_some ((problem self.old).delta d.now cell) }
        ensures same { problem self.new ≡ problem self.old }
        ensures asked { times self.new ≡ count_up (times self.old) };

    fn cost(&mut self, d: &Design) -> Cost
        requires { IsAdmitted (problem self.old).families d.now }
        ensures value { result ≡ cost_of (problem self.old) d.now }
        ensures same { problem self.new ≡ problem self.old }
        ensures asked { times self.new ≡ count_up (times self.old) };

    fn asked(&self) -> u64
        ensures { result ≡ times self.now };

    /// The laws of the least absolute distortion of a box.
    ghost sound: { (x : Self) → IsSound (problem x) };
}

ghost use Rattle.std.specs.Prelude.{◌≡◌, ◌+◌, ◌<◌, ◌≤◌, length, IfOk, OnErr};
ghost use Rattle.ldp_series.specs.Draft.{HasRoom, Appends, Extends};
ghost use Rattle.ldp_series.specs.Formula.{#, square};
ghost use Rattle.ldp_series.specs.Series.{repeated, exponential};

use crate::Memory;
use crate::build::Build;

/// k = 12 down to 1.
const DIVISORS: [u16; 12] = [12, 11, 10, 9, 8, 7, 6, 5, 4, 3, 2, 1];

impl Build {
    /// Appends the exponential function: 67 steps.
    pub fn exp(&mut self, a: u16) -> Result<u16, Memory>
        requires place { a < length self.old.steps }
        requires room { HasRoom 67 self.old }
        ensures ok { IfOk result (Appends (exponential a) 67 self.old self.new) }
        ensures err { OnErr result (self.new ≡ self.old) }
    {
        let start = self.count();
        let made = self.append_exponential(a);
        self.or_cut(start, made)
    }

    fn append_exponential(&mut self, a: u16) -> Result<u16, Memory>
        requires place { a < length self.old.steps }
        requires room { HasRoom 67 self.old }
        ensures ok { IfOk result (Appends (exponential a) 67 self.old self.new) }
        ensures kept { Extends self.old self.new }
    {
        let sixteen = self.whole(16)?;
        let y = self.div(a, sixteen)?;
        let first = self.whole(1)?;
        let r = self.grow(y, first, &DIVISORS)?;
        let place = self.sixteenth_power(r)?;
        Ok(place)
    }

    fn sixteenth_power(&mut self, r: u16) -> Result<u16, Memory>
        requires place { r < length self.old.steps }
        requires room { HasRoom 4 self.old }
        ensures ok { IfOk result (Appends (repeated 4 (λ s. square (# s)) r) 4 self.old self.new) }
        ensures kept { Extends self.old self.new }
    {
        let second = self.sq(r)?;
        let fourth = self.sq(second)?;
        let eighth = self.sq(fourth)?;
        let sixteenth = self.sq(eighth)?;
        Ok(sixteenth)
    }
}

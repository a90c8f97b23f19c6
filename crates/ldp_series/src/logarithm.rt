ghost use Rattle.std.specs.Prelude.{◌≡◌, ◌+◌, ◌<◌, ◌≤◌, length, IfOk, OnErr};
ghost use Rattle.ldp_series.specs.Draft.{HasRoom, Appends, Extends};
ghost use Rattle.ldp_series.specs.Formula.{#, √};
ghost use Rattle.ldp_series.specs.Series.{repeated, difference_over_sum, logarithm};

use crate::Memory;
use crate::build::Build;
use ldp_num::ONE;

/// 1 / (2k + 1) for k = 0 to 9, in units of 10^-15, rounded down.
const COEFFICIENTS: [i128; 10] = [
    ONE,
    ONE / 3,
    ONE / 5,
    ONE / 7,
    ONE / 9,
    ONE / 11,
    ONE / 13,
    ONE / 15,
    ONE / 17,
    ONE / 19,
];

impl Build {
    /// Appends the natural logarithm: 42 steps.
    pub fn ln(&mut self, a: u16) -> Result<u16, Memory>
        requires place { a < length self.old.steps }
        requires room { HasRoom 42 self.old }
        ensures ok { IfOk result (Appends (logarithm a) 42 self.old self.new) }
        ensures err { OnErr result (self.new ≡ self.old) }
    {
        let start = self.count();
        let made = self.append_logarithm(a);
        self.or_cut(start, made)
    }

    fn append_logarithm(&mut self, a: u16) -> Result<u16, Memory>
        requires place { a < length self.old.steps }
        requires room { HasRoom 42 self.old }
        ensures ok { IfOk result (Appends (logarithm a) 42 self.old self.new) }
        ensures kept { Extends self.old self.new }
    {
        let r = self.root_five_times(a)?;
        let y = self.difference_over_sum(r)?;
        let series = self.odd_polynomial(y, &COEFFICIENTS)?;
        let factor = self.whole(64)?;
        let place = self.mul(series, factor)?;
        Ok(place)
    }

    fn root_five_times(&mut self, x: u16) -> Result<u16, Memory>
        requires place { x < length self.old.steps }
        requires room { HasRoom 5 self.old }
        ensures ok { IfOk result (Appends (repeated 5 (λ y. √ (# y)) x) 5 self.old self.new) }
        ensures kept { Extends self.old self.new }
    {
        let second = self.sqrt(x)?;
        let fourth = self.sqrt(second)?;
        let eighth = self.sqrt(fourth)?;
        let sixteenth = self.sqrt(eighth)?;
        let thirty_second = self.sqrt(sixteenth)?;
        Ok(thirty_second)
    }

    fn difference_over_sum(&mut self, r: u16) -> Result<u16, Memory>
        requires place { r < length self.old.steps }
        requires room { HasRoom 5 self.old }
        ensures ok { IfOk result (Appends (difference_over_sum r) 5 self.old self.new) }
        ensures kept { Extends self.old self.new }
    {
        let one = self.whole(1)?;
        let difference = self.sub(r, one)?;
        let one_again = self.whole(1)?;
        let sum = self.add(r, one_again)?;
        let y = self.div(difference, sum)?;
        Ok(y)
    }
}

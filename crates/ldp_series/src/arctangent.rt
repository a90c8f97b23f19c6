ghost use Rattle.std.specs.Prelude.{◌≡◌, ◌+◌, ◌<◌, ◌≤◌, length, IfOk, OnErr};
ghost use Rattle.ldp_series.specs.Draft.{HasRoom, Appends, Extends};
ghost use Rattle.ldp_series.specs.Series.{repeated, half_angle, arctangent};

use crate::Memory;
use crate::build::Build;
use ldp_num::ONE;

/// (-1)^k / (2k + 1) for k = 0 to 10, in units of 10^-15, rounded down: a quotient below 0 is
/// rounded toward 0, so 1 is taken away.
const COEFFICIENTS: [i128; 11] = [
    ONE,
    -ONE / 3 - 1,
    ONE / 5,
    -ONE / 7 - 1,
    ONE / 9,
    -ONE / 11 - 1,
    ONE / 13,
    -ONE / 15 - 1,
    ONE / 17,
    -ONE / 19 - 1,
    ONE / 21,
];

impl Build {
    /// Appends the arctangent, in radians: 56 steps.
    pub fn atan(&mut self, a: u16) -> Result<u16, Memory>
        requires place { a < length self.old.steps }
        requires room { HasRoom 56 self.old }
        ensures ok { IfOk result (Appends (arctangent a) 56 self.old self.new) }
        ensures err { OnErr result (self.new ≡ self.old) }
    {
        let start = self.count();
        let made = self.append_arctangent(a);
        self.or_cut(start, made)
    }

    fn append_arctangent(&mut self, a: u16) -> Result<u16, Memory>
        requires place { a < length self.old.steps }
        requires room { HasRoom 56 self.old }
        ensures ok { IfOk result (Appends (arctangent a) 56 self.old self.new) }
        ensures kept { Extends self.old self.new }
    {
        let y = self.eighth_angle(a)?;
        let series = self.odd_polynomial(y, &COEFFICIENTS)?;
        let eight = self.whole(8)?;
        let place = self.mul(series, eight)?;
        Ok(place)
    }

    fn eighth_angle(&mut self, x: u16) -> Result<u16, Memory>
        requires place { x < length self.old.steps }
        requires room { HasRoom 21 self.old }
        ensures ok { IfOk result (Appends (repeated 3 half_angle x) 21 self.old self.new) }
        ensures kept { Extends self.old self.new }
    {
        let half = self.half_angle(x)?;
        let quarter = self.half_angle(half)?;
        let eighth = self.half_angle(quarter)?;
        Ok(eighth)
    }

    fn half_angle(&mut self, x: u16) -> Result<u16, Memory>
        requires place { x < length self.old.steps }
        requires room { HasRoom 7 self.old }
        ensures ok { IfOk result (Appends (half_angle x) 7 self.old self.new) }
        ensures kept { Extends self.old self.new }
    {
        let one = self.whole(1)?;
        let one_below = self.whole(1)?;
        let square = self.sq(x)?;
        let sum = self.add(one_below, square)?;
        let root = self.sqrt(sum)?;
        let divisor = self.add(one, root)?;
        let half = self.div(x, divisor)?;
        Ok(half)
    }
}

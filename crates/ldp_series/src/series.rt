ghost use Rattle.std.specs.Prelude.{◌≡◌, ◌+◌, ◌-◌, ◌*◌, ◌<◌, ◌≤◌, length, All, IfOk, OnErr};
ghost use Rattle.ldp_num.specs.Number.{IsNumber};
ghost use Rattle.ldp_series.specs.Draft.{HasRoom, Appends, Extends};
ghost use Rattle.ldp_series.specs.Series.{round, alternating, growing_round, growing, horner};
ghost use Rattle.ldp_series.specs.Series.{polynomial, odd_polynomial};
ghost use Rattle.ldp_series.specs.Series.{sine, cosine};

use crate::Memory;
use crate::build::Build;

/// 2k (2k + 1) for k = 13 down to 1.
const SINE_DIVISORS: [u16; 13] = [
    26 * 27,
    24 * 25,
    22 * 23,
    20 * 21,
    18 * 19,
    16 * 17,
    14 * 15,
    12 * 13,
    10 * 11,
    8 * 9,
    6 * 7,
    4 * 5,
    2 * 3,
];

/// (2k - 1) 2k for k = 13 down to 1.
const COSINE_DIVISORS: [u16; 13] = [
    25 * 26,
    23 * 24,
    21 * 22,
    19 * 20,
    17 * 18,
    15 * 16,
    13 * 14,
    11 * 12,
    9 * 10,
    7 * 8,
    5 * 6,
    3 * 4,
    1 * 2,
];

impl Build {
    /// Appends the sine of an angle in radians: 68 steps.
    pub fn sin(&mut self, a: u16) -> Result<u16, Memory>
        requires place { a < length self.old.steps }
        requires room { HasRoom 68 self.old }
        ensures ok { IfOk result (Appends (sine a) 68 self.old self.new) }
        ensures err { OnErr result (self.new ≡ self.old) }
    {
        let start = self.count();
        let made = self.append_sine(a);
        self.or_cut(start, made)
    }

    /// Appends the cosine of an angle in radians: 67 steps.
    pub fn cos(&mut self, a: u16) -> Result<u16, Memory>
        requires place { a < length self.old.steps }
        requires room { HasRoom 67 self.old }
        ensures ok { IfOk result (Appends (cosine a) 67 self.old self.new) }
        ensures err { OnErr result (self.new ≡ self.old) }
    {
        let start = self.count();
        let made = self.append_cosine(a);
        self.or_cut(start, made)
    }

    /// Appends the polynomial c0 + c1 x + c2 x² + .., its constants in units of 10^-15: 3 n - 2
    /// steps for n of them.
    pub fn poly(&mut self, x: u16, c: &[i128]) -> Result<u16, Memory>
        requires place { x < length self.old.steps }
        requires some { 0 < length c.now }
        requires numbers { All IsNumber c.now }
        requires room { HasRoom (3 * length c.now - 2) self.old }
        ensures ok { IfOk result
            (Appends (polynomial x c.now) (3 * length c.now - 2) self.old self.new) }
        ensures err { OnErr result (self.new ≡ self.old) }
    {
        let start = self.count();
        let made = self.append_polynomial(x, c);
        self.or_cut(start, made)
    }

    fn append_sine(&mut self, a: u16) -> Result<u16, Memory>
        requires place { a < length self.old.steps }
        requires room { HasRoom 68 self.old }
        ensures ok { IfOk result (Appends (sine a) 68 self.old self.new) }
        ensures kept { Extends self.old self.new }
    {
        let z = self.sq(a)?;
        let first = self.whole(1)?;
        let r = self.alternate(z, first, &SINE_DIVISORS)?;
        let place = self.mul(a, r)?;
        Ok(place)
    }

    fn append_cosine(&mut self, a: u16) -> Result<u16, Memory>
        requires place { a < length self.old.steps }
        requires room { HasRoom 67 self.old }
        ensures ok { IfOk result (Appends (cosine a) 67 self.old self.new) }
        ensures kept { Extends self.old self.new }
    {
        let z = self.sq(a)?;
        let first = self.whole(1)?;
        let place = self.alternate(z, first, &COSINE_DIVISORS)?;
        Ok(place)
    }

    fn alternate(&mut self, z: u16, first: u16, divisors: &[u16]) -> Result<u16, Memory>
        requires z { z < length self.old.steps }
        requires first { first + 1 ≡ length self.old.steps }
        requires small { All (λ d. d ≤ 10000) divisors.now }
        requires room { HasRoom (5 * length divisors.now) self.old }
        ensures ok { IfOk result
            (Appends (alternating z divisors.now first) (5 * length divisors.now)
            self.old self.new) }
        ensures kept { Extends self.old self.new }
    {
        let mut r = first;
        for divisor in divisors {
            r = self.round(z, r, *divisor)?;
        }
        Ok(r)
    }

    fn round(&mut self, z: u16, r: u16, divisor: u16) -> Result<u16, Memory>
        requires z { z < length self.old.steps }
        requires r { r < length self.old.steps }
        requires small { divisor ≤ 10000 }
        requires room { HasRoom 5 self.old }
        ensures ok { IfOk result (Appends (round z r divisor) 5 self.old self.new) }
        ensures kept { Extends self.old self.new }
    {
        let one = self.whole(1)?;
        let product = self.mul(z, r)?;
        let whole = self.whole(divisor)?;
        let quotient = self.div(product, whole)?;
        let next = self.sub(one, quotient)?;
        Ok(next)
    }

    pub(crate) fn grow(&mut self, y: u16, first: u16, divisors: &[u16]) -> Result<u16, Memory>
        requires y { y < length self.old.steps }
        requires first { first + 1 ≡ length self.old.steps }
        requires small { All (λ d. d ≤ 10000) divisors.now }
        requires room { HasRoom (5 * length divisors.now) self.old }
        ensures ok { IfOk result
            (Appends (growing y divisors.now first) (5 * length divisors.now)
            self.old self.new) }
        ensures kept { Extends self.old self.new }
    {
        let mut r = first;
        for divisor in divisors {
            r = self.growing_round(y, r, *divisor)?;
        }
        Ok(r)
    }

    fn growing_round(&mut self, y: u16, r: u16, divisor: u16) -> Result<u16, Memory>
        requires y { y < length self.old.steps }
        requires r { r < length self.old.steps }
        requires small { divisor ≤ 10000 }
        requires room { HasRoom 5 self.old }
        ensures ok { IfOk result (Appends (growing_round y r divisor) 5 self.old self.new) }
        ensures kept { Extends self.old self.new }
    {
        let one = self.whole(1)?;
        let product = self.mul(y, r)?;
        let whole = self.whole(divisor)?;
        let quotient = self.div(product, whole)?;
        let next = self.add(one, quotient)?;
        Ok(next)
    }

    pub(crate) fn odd_polynomial(&mut self, y: u16, c: &[i128]) -> Result<u16, Memory>
        requires place { y < length self.old.steps }
        requires some { 0 < length c.now }
        requires numbers { All IsNumber c.now }
        requires room { HasRoom (3 * length c.now) self.old }
        ensures ok { IfOk result
            (Appends (odd_polynomial y c.now) (3 * length c.now) self.old self.new) }
        ensures kept { Extends self.old self.new }
    {
        let z = self.sq(y)?;
        let p = self.append_polynomial(z, c)?;
        let product = self.mul(y, p)?;
        Ok(product)
    }

    fn append_polynomial(&mut self, x: u16, c: &[i128]) -> Result<u16, Memory>
        requires place { x < length self.old.steps }
        requires some { 0 < length c.now }
        requires numbers { All IsNumber c.now }
        requires room { HasRoom (3 * length c.now - 2) self.old }
        ensures ok { IfOk result
            (Appends (polynomial x c.now) (3 * length c.now - 2) self.old self.new) }
        ensures kept { Extends self.old self.new }
    {
        let last = c.len() - 1;
        let mut r = self.constant(c[last])?;
        for i in (0..last).rev() {
            r = self.horner(x, r, c[i])?;
        }
        Ok(r)
    }

    fn horner(&mut self, x: u16, r: u16, c: i128) -> Result<u16, Memory>
        requires x { x < length self.old.steps }
        requires r { r < length self.old.steps }
        requires number { IsNumber c }
        requires room { HasRoom 3 self.old }
        ensures ok { IfOk result (Appends (horner x c r) 3 self.old self.new) }
        ensures kept { Extends self.old self.new }
    {
        let product = self.mul(r, x)?;
        let c = self.constant(c)?;
        let sum = self.add(product, c)?;
        Ok(sum)
    }
}

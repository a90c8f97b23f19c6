ghost use Rattle.std.specs.Prelude.{◌≡◌, ℕ, ℤ, List, option_map};
ghost use Rattle.std.specs.Bool.{Decides};
ghost use Rattle.ldp_num.specs.Number.{IsNumber};
ghost use Rattle.ldp_num.specs.Written.{written};

/// A carrier: values that a formula is run over. What a value means is a list of numbers, and each
/// method is the written operation of the carrier, None exactly where that is undefined.
pub trait Num: Copy {
    /// 0 is the plain number, 1 the range, 2 the item of slopes, 3 the twin of ranges.
    const CARRIER: u32;

    ghost CARRIER: { ℕ };

    ghost meaning: { Self → List ℤ };

    /// The value of a number, given in units of 10^-15.
    fn constant(v: i128) -> Self
        requires { IsNumber v }
        ensures { meaning result ≡ (written CARRIER).constant v };

    /// The sum.
    fn add(self, other: Self) -> Option<Self>
        ensures { option_map meaning result
            ≡ (written CARRIER).add (meaning self) (meaning other) };

    /// The difference.
    fn sub(self, other: Self) -> Option<Self>
        ensures { option_map meaning result
            ≡ (written CARRIER).sub (meaning self) (meaning other) };

    /// The product, rounded down.
    fn mul(self, other: Self) -> Option<Self>
        ensures { option_map meaning result
            ≡ (written CARRIER).mul (meaning self) (meaning other) };

    /// The quotient, rounded down, for a divisor above 0.
    fn div(self, other: Self) -> Option<Self>
        ensures { option_map meaning result
            ≡ (written CARRIER).div (meaning self) (meaning other) };

    /// The square, rounded down.
    fn sq(self) -> Option<Self>
        ensures { option_map meaning result ≡ (written CARRIER).sq (meaning self) };

    /// The square root, rounded down, of a value of at least 0.
    fn sqrt(self) -> Option<Self>
        ensures { option_map meaning result ≡ (written CARRIER).sqrt (meaning self) };

    /// The value itself where it is at least 0: how a formula states its domain.
    fn need(self) -> Option<Self>
        ensures { option_map meaning result ≡ (written CARRIER).need (meaning self) };

    /// Whether both mean the same.
    fn same(self, other: Self) -> bool
        ensures { Decides result (meaning self ≡ meaning other) };
}

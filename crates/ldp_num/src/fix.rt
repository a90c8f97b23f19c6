ghost use Rattle.ldp_num.specs.Number.{IsNumber};

use crate::carrier::Num;
use crate::{plain, product, quotient, root};

/// A plain number, carrier 0, in units of 10^-15.
#[derive(Clone, Copy, Debug, PartialEq, Eq)]
pub struct Fix {
    /// The number, in units of 10^-15, at most 10^19 in absolute value.
    pub n: i128,
    pub ghost in_range: { IsNumber n },
}

impl Num for Fix {
    ghost use Rattle.ldp_num.specs.Written.{plain_out};

    const CARRIER: u32 = 0;

    ghost CARRIER = { 0 };

    ghost meaning = { λ x. plain_out x.n };

    #[inline(always)]
    fn constant(v: i128) -> Fix {
        Fix { n: v }
    }

    #[inline(always)]
    fn add(self, other: Fix) -> Option<Fix> {
        Some(Fix {
            n: plain::add(self.n, other.n)?,
        })
    }

    #[inline(always)]
    fn sub(self, other: Fix) -> Option<Fix> {
        Some(Fix {
            n: plain::sub(self.n, other.n)?,
        })
    }

    #[inline(always)]
    fn mul(self, other: Fix) -> Option<Fix> {
        Some(Fix {
            n: product::mul(self.n, other.n)?,
        })
    }

    #[inline(always)]
    fn div(self, other: Fix) -> Option<Fix> {
        Some(Fix {
            n: quotient::div(self.n, other.n)?,
        })
    }

    #[inline(always)]
    fn sq(self) -> Option<Fix> {
        Some(Fix {
            n: product::sq(self.n)?,
        })
    }

    #[inline(always)]
    fn sqrt(self) -> Option<Fix> {
        Some(Fix {
            n: root::sqrt(self.n)?,
        })
    }

    #[inline(always)]
    fn need(self) -> Option<Fix> {
        Some(Fix {
            n: plain::need(self.n)?,
        })
    }

    #[inline(always)]
    fn same(self, other: Fix) -> bool {
        self.n == other.n
    }
}

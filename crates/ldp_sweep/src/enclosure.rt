use crate::peak::Peak;

/// Two bounds of the values at the cells of a stretch.
#[derive(Clone, Copy, Debug, PartialEq, Eq)]
pub struct Enclosure {
    /// None of the values is less.
    pub low: u128,
    /// None of the values is greater.
    pub high: u128,
}

impl Enclosure {
    ghost use Rattle.std.specs.Prelude.{◌≡◌, ◌+◌, ℕ, Option, true, IfSome};
    ghost use Rattle.ldp_sweep.specs.Cut.{IsWithin};
    ghost use Rattle.ldp_sweep.specs.Tally.{over_of};
    ghost use Rattle.ldp_sweep.specs.Peaks.{AreNoHigher};

    /// Whether no cell of the stretch has a greater value than the peak, or the same value and
    /// comes earlier. False: it is not known.
    pub(crate) fn is_no_higher(self, from: u32, peak: Peak) -> bool
        ensures { (value : ℕ → Option ℕ) (to : ℕ) → IsWithin value from to self
            → result ≡ true → AreNoHigher value from to peak }
    {
        self.high < peak.value || self.high == peak.value && peak.cell <= from
    }

    /// How many of the so many cells of the stretch are above the tolerance, if all or none are.
    pub(crate) fn over(self, tolerance: Option<u64>, cells: u32) -> Option<u32>
        ensures { (value : ℕ → Option ℕ) (from to : ℕ) → IsWithin value from to self
            → from + cells ≡ to → IfSome result (λ more.
            over_of value tolerance to ≡ over_of value tolerance from + more) }
    {
        let Some(limit) = tolerance else {
            return Some(0);
        };
        let limit = u128::from(limit);
        if self.high <= limit {
            return Some(0);
        }
        if self.low > limit {
            return Some(cells);
        }
        None
    }
}

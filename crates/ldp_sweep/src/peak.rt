/// A value and the cell that has it. Of two peaks the one of the greater value is the higher, and
/// of equal values that of the earlier cell.
#[derive(Clone, Copy, Debug, PartialEq, Eq)]
pub struct Peak {
    /// The value.
    pub value: u128,
    /// The cell, by its number.
    pub cell: u32,
}

impl Peak {
    ghost use Rattle.std.specs.Prelude.{◌≡◌, ◌⊎◌};
    ghost use Rattle.ldp_sweep.specs.Peaks.{IsAtMost};

    /// The higher of two.
    pub(crate) fn or(self, other: Peak) -> Peak
        ensures one { (result ≡ self) ⊎ (result ≡ other) }
        ensures left { IsAtMost self result }
        ensures right { IsAtMost other result }
    {
        if other.value > self.value || other.value == self.value && other.cell < self.cell {
            return other;
        }
        self
    }
}

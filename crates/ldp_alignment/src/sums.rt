ghost use Rattle.std.specs.Prelude.{◌≡◌, ℕ, ◌+◌, ◌*◌, ◌≤◌, pos, ◌+ℤ◌, ◌*ℤ◌, Some};
ghost use Rattle.ldp_heights.specs.Grid.{IsHeight, IsSpacing};
ghost use Rattle.ldp_alignment.specs.Heights.{mean};
ghost use Rattle.ldp_alignment.specs.Bounded.{AreBounded, most_weight};

/// The sum of weights of some places, and that of weight times height in millimetres.
#[derive(Clone, Copy)]
pub struct Sums {
    pub weights: i128,
    pub heights: i128,
}

/// Of no places.
pub fn nothing() -> Sums
    ensures weights { result.weights ≡ pos 0 }
    ensures heights { result.heights ≡ pos 0 }
    ensures bounded { AreBounded 1 result }
{
    Sums {
        weights: 0,
        heights: 0,
    }
}

/// Of a place with its height.
pub fn weighted(weight: u128, mm: i32) -> Sums
    requires weight { weight ≤ most_weight }
    requires height { IsHeight (Some mm) }
    ensures weights { result.weights ≡ pos weight }
    ensures heights { result.heights ≡ pos weight *ℤ mm }
    ensures bounded { AreBounded 1 result }
{
    Sums {
        weights: weight as i128,
        heights: weight as i128 * i128::from(mm),
    }
}

/// Of the places of both.
pub fn sum(first: &Sums, second: &Sums) -> Sums
    requires first { AreBounded 2 first.now }
    requires second { AreBounded 2 second.now }
    ensures weights { result.weights ≡ first.now.weights +ℤ second.now.weights }
    ensures heights { result.heights ≡ first.now.heights +ℤ second.now.heights }
    ensures bounded { (n : ℕ) → AreBounded n first.now → AreBounded n second.now
        → AreBounded (n + n) result }
{
    Sums {
        weights: first.weights + second.weights,
        heights: first.heights + second.heights,
    }
}

/// The mean height in millimetres, rounded down, where the weights make up the whole.
pub fn mean(spacing: u64, sums: &Sums) -> Option<i32>
    requires spacing { IsSpacing spacing }
    requires bounded { AreBounded 4 sums.now }
    ensures value { result ≡ mean (spacing * spacing) sums.now.weights sums.now.heights }
    ensures range { IsHeight result }
{
    let whole = i128::from(spacing) * i128::from(spacing);
    if sums.weights != whole {
        return None;
    }
    Some(sums.heights.div_euclid(whole) as i32)
}

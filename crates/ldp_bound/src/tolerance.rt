ghost use Rattle.std.specs.Prelude.{◌≡◌, ◌≤ℤ◌, pos, IfSome, option_map, unsigned_abs};
ghost use Rattle.ldp_design.specs.Limits.{IsTolerance};

/// A tolerance as a natural number, in units of 10^-15.
pub(crate) fn units(tolerance: Option<i128>) -> Option<u64>
    requires { IfSome tolerance IsTolerance }
    ensures { result ≡ option_map unsigned_abs tolerance }
{
    match tolerance {
        Some(limit) => Some(limit as u64),
        None => None,
    }
}

/// The same as a signed number.
pub(crate) fn signed_units(tolerance: Option<u64>) -> Option<i128>
    ensures { result ≡ option_map pos tolerance }
{
    match tolerance {
        Some(limit) => Some(i128::from(limit)),
        None => None,
    }
}

ghost use Rattle.std.specs.Prelude.{◌≡◌, ◌≤◌, int_lt, if◌then◌else◌};
ghost use Rattle.std.specs.Ordering.{int_eq};

/// Whether two numbers are equal.
pub fn is_equal(a: &i128, b: &i128) -> bool
    ensures { result ≡ int_eq a.now b.now }
{
    *a == *b
}

/// 1 for a number above the limit, and 0 for another.
pub fn count_above(limit: &i128, number: &i128) -> u32
    ensures count { result ≡ (if int_lt limit.now number.now then 1 else 0) }
    ensures few { result ≤ 1 }
{
    u32::from(*number > *limit)
}

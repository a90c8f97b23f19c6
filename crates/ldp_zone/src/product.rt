ghost use Rattle.std.specs.Prelude.{◌≡◌, ◌≤◌, ◌*◌, ◌^◌, ◌*ℤ◌, unsigned_abs};
ghost use Rattle.ldp_zone.specs.Products.{IsWide, IsNarrow};

/// A product that fits 128 bits.
#[tactic(auto, using(crate::proofs::Products::products))]
pub fn product(a: i128, b: i128) -> i128
    requires wide { IsWide a }
    requires narrow { IsNarrow b }
    ensures value { result ≡ a *ℤ b }
    ensures small { unsigned_abs result ≤ 16 * 10 ^ 34 }
{
    a * b
}

ghost use Rattle.std.specs.Prelude.{◌≡◌};
ghost use Rattle.ldp_zone.specs.Inside.{same_point};

/// A point: x is the longitude and y the latitude, in 10^-12 degrees.
#[derive(Clone, Copy, Debug, PartialEq, Eq)]
pub struct Point {
    pub x: i128,
    pub y: i128,
}

impl Point {
    pub(crate) fn is_same(&self, other: &Point) -> bool
        ensures { result ≡ same_point self.now other.now }
    {
        self.x == other.x && self.y == other.y
    }
}

ghost use Rattle.std.specs.Prelude.{◌≡◌};
ghost use Rattle.ldp_zone.specs.Walk.{is_inside};

/// What a walk along edges finds of a point.
#[derive(Clone, Copy)]
pub enum Walked {
    /// The point lies on one of the edges.
    OnEdge,
    /// The point lies on none, and an odd or even number of them crosses the ray from it to the
    /// east.
    Crossing { odd: bool },
}

impl Walked {
    /// Whether the point lies in the rings whose edges were walked along.
    pub fn is_inside(self) -> bool
        ensures { result ≡ is_inside self }
    {
        match self {
            Walked::OnEdge => true,
            Walked::Crossing { odd } => odd,
        }
    }
}

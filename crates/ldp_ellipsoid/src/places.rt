/// The places of sin φ, cos φ and 1 - e² sin²φ in a build.
#[derive(Clone, Copy, Debug, PartialEq, Eq)]
pub struct Geo {
    pub s: u16,
    pub c: u16,
    pub w: u16,
}

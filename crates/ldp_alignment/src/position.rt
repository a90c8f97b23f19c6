/// A point: x is the longitude and y the latitude, in 10^-12 degrees.
#[derive(Clone, Copy)]
pub struct Position {
    pub x: i128,
    pub y: i128,
}

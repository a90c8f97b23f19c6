/// A station of a line.
#[derive(Clone, Copy, Debug, PartialEq, Eq)]
pub struct Station {
    /// The longitude, in 10^-12 degrees.
    pub x: i128,
    /// The latitude, in 10^-12 degrees.
    pub y: i128,
    /// The height, in millimetres; 0 in a line that was read and has no heights yet.
    pub mm: i32,
    /// The ground distance from the start of the line, in millimetres.
    pub chainage: i64,
}

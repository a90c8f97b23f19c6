/// A key of a family's table, or a table of a text: the whole text, or a family; `k0` is the scale.
#[derive(Clone, Copy, Debug, PartialEq, Eq)]
pub enum Key {
    Top,
    Family,
    Kind,
    Lat,
    /// The second standard parallel.
    Lat2,
    Lon,
    Azimuth,
    Scale,
    /// The latitude of false origin.
    Origin,
    Easting,
    Northing,
}

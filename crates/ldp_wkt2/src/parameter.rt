ghost use Rattle.std.specs.Prelude.{◌≡◌, ◌≤◌, ◌≤ℤ◌, pos, neg_ℤ};
ghost use Rattle.ldp_wkt2.specs.Profile.{row_of, unit_of};

use ldp_design::Key;

/// A parameter of a method, as the EPSG register names it.
#[derive(Clone, Copy, Debug, PartialEq, Eq)]
pub enum Parameter {
    LatitudeOfNaturalOrigin,
    LongitudeOfNaturalOrigin,
    ScaleAtNaturalOrigin,
    FalseEasting,
    FalseNorthing,
    LatitudeOfCentre,
    LongitudeOfCentre,
    AzimuthAtCentre,
    RectifiedToSkew,
    ScaleAtCentre,
    EastingAtCentre,
    NorthingAtCentre,
    LatitudeOfFalseOrigin,
    LongitudeOfFalseOrigin,
    FirstParallel,
    SecondParallel,
    EastingAtFalseOrigin,
    NorthingAtFalseOrigin,
}

impl Parameter {
    /// The key that the value has in design grids.
    pub fn key(self) -> Key
        ensures { result ≡ (row_of self).key }
    {
        match self {
            Parameter::LatitudeOfNaturalOrigin => Key::Lat,
            Parameter::LongitudeOfNaturalOrigin => Key::Lon,
            Parameter::ScaleAtNaturalOrigin => Key::Scale,
            Parameter::FalseEasting => Key::Easting,
            Parameter::FalseNorthing => Key::Northing,
            Parameter::LatitudeOfCentre => Key::Lat,
            Parameter::LongitudeOfCentre => Key::Lon,
            Parameter::AzimuthAtCentre => Key::Azimuth,
            Parameter::RectifiedToSkew => Key::Azimuth,
            Parameter::ScaleAtCentre => Key::Scale,
            Parameter::EastingAtCentre => Key::Easting,
            Parameter::NorthingAtCentre => Key::Northing,
            Parameter::LatitudeOfFalseOrigin => Key::Origin,
            Parameter::LongitudeOfFalseOrigin => Key::Lon,
            Parameter::FirstParallel => Key::Lat,
            Parameter::SecondParallel => Key::Lat2,
            Parameter::EastingAtFalseOrigin => Key::Easting,
            Parameter::NorthingAtFalseOrigin => Key::Northing,
        }
    }

    /// The name, as it stands in a line.
    pub fn name(self) -> &'static [u8]
        ensures { result.now ≡ (row_of self).name }
    {
        match self {
            Parameter::LatitudeOfNaturalOrigin => b"Latitude of natural origin",
            Parameter::LongitudeOfNaturalOrigin => b"Longitude of natural origin",
            Parameter::ScaleAtNaturalOrigin => b"Scale factor at natural origin",
            Parameter::FalseEasting => b"False easting",
            Parameter::FalseNorthing => b"False northing",
            Parameter::LatitudeOfCentre => b"Latitude of projection centre",
            Parameter::LongitudeOfCentre => b"Longitude of projection centre",
            Parameter::AzimuthAtCentre => b"Azimuth at projection centre",
            Parameter::RectifiedToSkew => b"Angle from Rectified to Skew Grid",
            Parameter::ScaleAtCentre => b"Scale factor at projection centre",
            Parameter::EastingAtCentre => b"Easting at projection centre",
            Parameter::NorthingAtCentre => b"Northing at projection centre",
            Parameter::LatitudeOfFalseOrigin => b"Latitude of false origin",
            Parameter::LongitudeOfFalseOrigin => b"Longitude of false origin",
            Parameter::FirstParallel => b"Latitude of 1st standard parallel",
            Parameter::SecondParallel => b"Latitude of 2nd standard parallel",
            Parameter::EastingAtFalseOrigin => b"Easting at false origin",
            Parameter::NorthingAtFalseOrigin => b"Northing at false origin",
        }
    }

    /// The code number in the EPSG register.
    pub fn code(self) -> &'static [u8]
        ensures { result.now ≡ (row_of self).code }
    {
        match self {
            Parameter::LatitudeOfNaturalOrigin => b"8801",
            Parameter::LongitudeOfNaturalOrigin => b"8802",
            Parameter::ScaleAtNaturalOrigin => b"8805",
            Parameter::FalseEasting => b"8806",
            Parameter::FalseNorthing => b"8807",
            Parameter::LatitudeOfCentre => b"8811",
            Parameter::LongitudeOfCentre => b"8812",
            Parameter::AzimuthAtCentre => b"8813",
            Parameter::RectifiedToSkew => b"8814",
            Parameter::ScaleAtCentre => b"8815",
            Parameter::EastingAtCentre => b"8816",
            Parameter::NorthingAtCentre => b"8817",
            Parameter::LatitudeOfFalseOrigin => b"8821",
            Parameter::LongitudeOfFalseOrigin => b"8822",
            Parameter::FirstParallel => b"8823",
            Parameter::SecondParallel => b"8824",
            Parameter::EastingAtFalseOrigin => b"8826",
            Parameter::NorthingAtFalseOrigin => b"8827",
        }
    }
}

/// The unit in which the value of a key is written.
pub fn unit_of(key: Key) -> &'static [u8]
    ensures { result.now ≡ unit_of key }
{
    match key {
        Key::Scale => b"SCALEUNIT[\"unity\",1]",
        Key::Easting | Key::Northing => b"LENGTHUNIT[\"metre\",1]",
        Key::Top
        | Key::Family
        | Key::Kind
        | Key::Lat
        | Key::Lat2
        | Key::Lon
        | Key::Azimuth
        | Key::Origin => b"ANGLEUNIT[\"degree\",0.0174532925199433]",
    }
}

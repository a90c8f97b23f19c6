ghost use Rattle.std.specs.Prelude.{◌≡◌, ◌≤◌, ◌≤ℤ◌, negsuc, pos, unsigned_abs, IfSome};
ghost use Rattle.ldp_design.specs.KeyRanges.{range_of};
ghost use Rattle.ldp_wkt2.specs.Profile.{row_of};
ghost use Rattle.ldp_wkt2.specs.Values.{value_of};
ghost use Rattle.ldp_wkt2.specs.Reading.{number_in, blank, with_value, is_rectified};
ghost use Rattle.ldp_wkt2.specs.Reading.{with_number, valued};

use crate::crs::Crs;
use crate::parameter::Parameter;
use ldp_design::{Key, Kind, range_of};
use ldp_num::ONE;
use ldp_spelling::read_trimmed;

/// The value of a key.
pub fn value_of(key: Key, crs: &Crs) -> i128
    ensures { result ≡ value_of key crs.now }
{
    match key {
        Key::Lat => crs.lat,
        Key::Lat2 => crs.azimuth,
        Key::Lon => crs.lon,
        Key::Azimuth => crs.azimuth,
        Key::Scale => crs.scale,
        Key::Origin => crs.origin,
        Key::Easting => i128::from(crs.easting),
        Key::Northing => i128::from(crs.northing),
        Key::Top | Key::Family | Key::Kind => 0,
    }
}

/// A system before any parameter is read.
pub fn blank(kind: Kind) -> Crs
    ensures { result ≡ blank kind }
{
    Crs {
        kind,
        lat: 0,
        lon: 0,
        azimuth: 0,
        scale: ONE,
        origin: 0,
        easting: 0,
        northing: 0,
    }
}

/// The system with another value of a key.
fn with_value(key: Key, value: i128, crs: Crs) -> Crs
    requires { unsigned_abs value ≤ 2_000_000_000_000_000 }
    ensures { result ≡ with_value key value crs }
{
    match key {
        Key::Lat => Crs { lat: value, ..crs },
        Key::Lat2 => Crs {
            azimuth: value,
            ..crs
        },
        Key::Lon => Crs { lon: value, ..crs },
        Key::Azimuth => Crs {
            azimuth: value,
            ..crs
        },
        Key::Scale => Crs {
            scale: value,
            ..crs
        },
        Key::Origin => Crs {
            origin: value,
            ..crs
        },
        Key::Easting => Crs {
            easting: value as i64,
            ..crs
        },
        Key::Northing => Crs {
            northing: value as i64,
            ..crs
        },
        Key::Top | Key::Family | Key::Kind => crs,
    }
}

/// Whether the value is the azimuth once more.
fn is_rectified(parameter: Parameter) -> bool
    ensures { result ≡ is_rectified parameter }
{
    match parameter {
        Parameter::RectifiedToSkew => true,
        _ => false,
    }
}

/// The system with the number of a parameter; the rectified angle must be the azimuth.
fn with_number(parameter: Parameter, crs: Crs, value: i128) -> Option<Crs>
    requires { unsigned_abs value ≤ 2_000_000_000_000_000 }
    ensures { result ≡ with_number parameter crs value }
{
    if !is_rectified(parameter) {
        Some(with_value(parameter.key(), value, crs))
    } else if value == crs.azimuth {
        Some(crs)
    } else {
        None
    }
}

/// The number of a parameter whose one spelling this is.
fn number_in(parameter: Parameter, kind: Kind, text: &[u8]) -> Option<i128>
    ensures value { result ≡ number_in (range_of (row_of parameter).key kind) text.now }
    ensures small { IfSome result (λ z. unsigned_abs z ≤ 2_000_000_000_000_000) }
{
    let range = range_of(parameter.key(), kind);
    let value = read_trimmed(text, range.places, range.low, range.high)?;
    if range.has(value) { Some(value) } else { None }
}

/// The system with the value of a parameter.
pub fn valued(parameter: Parameter, crs: Crs, text: &[u8]) -> Option<Crs>
    ensures { result ≡ valued parameter crs text.now }
{
    let value = number_in(parameter, crs.kind, text)?;
    with_number(parameter, crs, value)
}

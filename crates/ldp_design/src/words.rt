ghost use Rattle.std.specs.Prelude.{◌≡◌, ◌≤◌, length, bytes_eq};
ghost use Rattle.ldp_design.specs.Words.{kind_text, kind_named, key_text, axis_text, axis_named};

use crate::axis::AxisName;
use crate::family::Kind;
use crate::key::Key;

/// The word of a kind.
pub fn kind_text(kind: Kind) -> &'static str
    ensures { result.now ≡ kind_text kind }
{
    match kind {
        Kind::Tm => "tm",
        Kind::Lambert => "lambert",
        Kind::Hotine => "hotine",
        Kind::Lambert2 => "lambert2",
    }
}

fn is(word: &[u8], text: &str) -> bool
    ensures { result ≡ bytes_eq word.now text.now }
{
    word == text.as_bytes()
}

/// The kind of a word.
pub fn kind_named(word: &[u8]) -> Option<Kind>
    ensures { result ≡ kind_named word.now }
{
    if is(word, kind_text(Kind::Tm)) {
        Some(Kind::Tm)
    } else if is(word, kind_text(Kind::Lambert)) {
        Some(Kind::Lambert)
    } else if is(word, kind_text(Kind::Hotine)) {
        Some(Kind::Hotine)
    } else if is(word, kind_text(Kind::Lambert2)) {
        Some(Kind::Lambert2)
    } else {
        None
    }
}

/// The word of a key; the whole text, which no text names, is told as `top`.
pub fn key_text(key: Key) -> &'static str
    ensures value { result.now ≡ key_text key }
    ensures short { length result.now ≤ 8 }
{
    match key {
        Key::Top => "top",
        Key::Family => "family",
        Key::Kind => "kind",
        Key::Lat => "lat",
        Key::Lat2 => "lat2",
        Key::Lon => "lon",
        Key::Azimuth => "azimuth",
        Key::Scale => "k0",
        Key::Origin => "origin",
        Key::Easting => "easting",
        Key::Northing => "northing",
    }
}

/// The word of an axis: that of the key which has its name in a family of kind `hotine`.
pub fn axis_text(axis: AxisName) -> &'static str
    ensures { result.now ≡ axis_text axis }
{
    match axis {
        AxisName::Lat => key_text(Key::Lat),
        AxisName::Lon => key_text(Key::Lon),
        AxisName::Azimuth => key_text(Key::Azimuth),
        AxisName::Scale => key_text(Key::Scale),
    }
}

/// The axis of a word.
pub fn axis_named(word: &[u8]) -> Option<AxisName>
    ensures { result ≡ axis_named word.now }
{
    if is(word, axis_text(AxisName::Lat)) {
        Some(AxisName::Lat)
    } else if is(word, axis_text(AxisName::Lon)) {
        Some(AxisName::Lon)
    } else if is(word, axis_text(AxisName::Azimuth)) {
        Some(AxisName::Azimuth)
    } else if is(word, axis_text(AxisName::Scale)) {
        Some(AxisName::Scale)
    } else {
        None
    }
}

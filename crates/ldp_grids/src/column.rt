ghost use Rattle.std.specs.Prelude.{◌≡◌};
ghost use Rattle.ldp_grids.specs.Columns.{form_of, stands, is_family_key};

use ldp_design::{Key, Kind, key_text};

/// What a family of some kind has at a key.
#[derive(Clone, Copy, Debug, PartialEq, Eq)]
pub enum Form {
    /// The key may not stand there.
    Never,
    /// One value, a string.
    Single,
    /// One value, or a table of equally spaced ones.
    Axis,
    /// One value, or nothing.
    Optional,
}

impl Form {
    fn stands(self) -> bool
        ensures { result ≡ stands self }
    {
        match self {
            Form::Never => false,
            Form::Single => true,
            Form::Axis => true,
            Form::Optional => true,
        }
    }
}

/// What a family of a kind has at a key.
pub fn form_of(key: Key, kind: Kind) -> Form
    ensures { result ≡ form_of key kind }
{
    let (tm, lambert, hotine, lambert2) = match key {
        Key::Kind => (Form::Single, Form::Single, Form::Single, Form::Single),
        Key::Lat => (Form::Single, Form::Axis, Form::Axis, Form::Axis),
        Key::Lat2 => (Form::Never, Form::Never, Form::Never, Form::Axis),
        Key::Lon => (Form::Axis, Form::Single, Form::Axis, Form::Single),
        Key::Azimuth => (Form::Never, Form::Never, Form::Axis, Form::Never),
        Key::Scale => (Form::Axis, Form::Axis, Form::Axis, Form::Never),
        Key::Origin => (Form::Never, Form::Never, Form::Never, Form::Single),
        Key::Easting | Key::Northing => (
            Form::Optional,
            Form::Optional,
            Form::Optional,
            Form::Optional,
        ),
        Key::Top | Key::Family => (Form::Never, Form::Never, Form::Never, Form::Never),
    };
    match kind {
        Kind::Tm => tm,
        Kind::Lambert => lambert,
        Kind::Hotine => hotine,
        Kind::Lambert2 => lambert2,
    }
}

/// The keys of the families of all kinds.
const FAMILY_KEYS: [Key; 9] = [
    Key::Kind,
    Key::Lat,
    Key::Lat2,
    Key::Lon,
    Key::Azimuth,
    Key::Scale,
    Key::Origin,
    Key::Easting,
    Key::Northing,
];

/// Whether a family of a kind may have a key of this name.
pub fn is_family_key(kind: Kind, name: &str) -> bool
    ensures { result ≡ is_family_key kind name.now }
{
    FAMILY_KEYS.iter().any(|key| name == key_text(*key) && form_of(*key, kind).stands())
}

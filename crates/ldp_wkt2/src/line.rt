ghost use Rattle.std.specs.Prelude.{◌≡◌, ◌++◌, OnOk};
ghost use Rattle.std.specs.List.{flat_map};
ghost use Rattle.ldp_wkt2.specs.Lines.{start, end, method_text, before, behind};

use crate::method::{method_code, method_name};
use crate::parameter::{Parameter, unit_of};
use ldp_decimal::{Memory, Text};
use ldp_design::Kind;

/// The text before the method's name.
#[tactic(auto, unfolding(crate::specs::Lines::start))]
pub fn start() -> &'static [u8]
    ensures { result.now ≡ start }
{
    b"PROJCRS[\"LDP\",BASEGEOGCRS[\"GRS 80\",DATUM[\"GRS 80 datum\",\
    ELLIPSOID[\"GRS 1980\",6378137,298.257222101,LENGTHUNIT[\"metre\",1]]]],\
    CONVERSION[\"LDP\",METHOD[\""
}

/// The text behind the last parameter, with the line feed.
#[tactic(auto, unfolding(crate::specs::Lines::end))]
pub fn end() -> &'static [u8]
    ensures { result.now ≡ end }
{
    b"],CS[Cartesian,2],AXIS[\"easting (E)\",east],AXIS[\"northing (N)\",north],\
    LENGTHUNIT[\"metre\",1]]\n"
}

/// A method, from its name on, in parts.
#[tactic(auto, unfolding(crate::specs::Lines::method_text))]
pub fn method_parts(kind: Kind) -> [&'static [u8]; 5]
    ensures { flat_map (λ part. part.now) result ≡ method_text kind }
{
    [
        method_name(kind),
        b"\"",
        b",ID[\"EPSG\",",
        method_code(kind),
        b"]]",
    ]
}

/// A parameter up to its value, in parts.
#[tactic(auto, unfolding(crate::specs::Lines::before))]
pub fn parts_before(parameter: Parameter) -> [&'static [u8]; 3]
    ensures { flat_map (λ part. part.now) result ≡ before parameter }
{
    [b",PARAMETER[\"", parameter.name(), b"\","]
}

/// A parameter from behind its value on, in parts.
#[tactic(auto, unfolding(crate::specs::Lines::behind))]
pub fn parts_behind(parameter: Parameter) -> [&'static [u8]; 5]
    ensures { flat_map (λ part. part.now) result ≡ behind parameter }
{
    [
        b",",
        unit_of(parameter.key()),
        b",ID[\"EPSG\",",
        parameter.code(),
        b"]]",
    ]
}

/// Pushes parts of a text one behind the other.
pub fn push_parts(text: &mut Text, parts: &[&[u8]]) -> Result<(), Memory>
    ensures { OnOk result (text.new ≡ text.old ++ flat_map (λ part. part.now) parts.now) }
{
    for part in parts {
        text.push(part)?;
    }
    Ok(())
}

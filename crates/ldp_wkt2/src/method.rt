ghost use Rattle.std.specs.Prelude.{◌≡◌};
ghost use Rattle.ldp_wkt2.specs.Profile.{method_of, parameters_of};

use crate::parameter::Parameter;
use ldp_design::Kind;

const NATURAL_ORIGIN: [Parameter; 5] = [
    Parameter::LatitudeOfNaturalOrigin,
    Parameter::LongitudeOfNaturalOrigin,
    Parameter::ScaleAtNaturalOrigin,
    Parameter::FalseEasting,
    Parameter::FalseNorthing,
];

const CENTRE: [Parameter; 7] = [
    Parameter::LatitudeOfCentre,
    Parameter::LongitudeOfCentre,
    Parameter::AzimuthAtCentre,
    Parameter::RectifiedToSkew,
    Parameter::ScaleAtCentre,
    Parameter::EastingAtCentre,
    Parameter::NorthingAtCentre,
];

const FALSE_ORIGIN: [Parameter; 6] = [
    Parameter::LatitudeOfFalseOrigin,
    Parameter::LongitudeOfFalseOrigin,
    Parameter::FirstParallel,
    Parameter::SecondParallel,
    Parameter::EastingAtFalseOrigin,
    Parameter::NorthingAtFalseOrigin,
];

/// The parameters of the method of a kind, in the order of the line.
pub fn parameters_of(kind: Kind) -> &'static [Parameter]
    ensures { result.now ≡ parameters_of kind }
{
    match kind {
        Kind::Tm | Kind::Lambert => &NATURAL_ORIGIN,
        Kind::Hotine => &CENTRE,
        Kind::Lambert2 => &FALSE_ORIGIN,
    }
}

/// The name of the method of a kind.
pub fn method_name(kind: Kind) -> &'static [u8]
    ensures { result.now ≡ (method_of kind).name }
{
    match kind {
        Kind::Tm => b"Transverse Mercator",
        Kind::Lambert => b"Lambert Conic Conformal (1SP)",
        Kind::Hotine => b"Hotine Oblique Mercator (variant B)",
        Kind::Lambert2 => b"Lambert Conic Conformal (2SP)",
    }
}

/// The code number of the method of a kind in the EPSG register.
pub fn method_code(kind: Kind) -> &'static [u8]
    ensures { result.now ≡ (method_of kind).code }
{
    match kind {
        Kind::Tm => b"9807",
        Kind::Lambert => b"9801",
        Kind::Hotine => b"9815",
        Kind::Lambert2 => b"9802",
    }
}

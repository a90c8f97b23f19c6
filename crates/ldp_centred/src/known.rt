ghost use Rattle.std.specs.Prelude.{◌≡◌, IfSome};
ghost use Rattle.std.specs.Bool.{Decides};
ghost use Rattle.ldp_num.specs.Number.{IsNumber};
ghost use Rattle.ldp_num.specs.Slopes.{made};
ghost use Rattle.ldp_centred.specs.Kept.{IsError};

use crate::slopes::{Slopes, same_slopes};
use std::marker::Model;

/// What is known of an item besides its range: the centre and the error, in units of 10^-15, and
/// the slopes.
#[derive(Clone, Copy, Debug, PartialEq, Eq)]
pub struct Known {
    pub centre: i128,
    pub error: i128,
    pub slopes: Slopes,
}

impl Model for Known {
    ghost use Rattle.ldp_num.specs.Slopes.{Known as KnownValue};
    ghost use Rattle.ldp_centred.specs.Kept.{IsKnown};

    ghost Value = { KnownValue };

    ghost view = { λ k. record { centre = k.centre; error = k.error; slopes = k.slopes } };

    ghost invariant = { λ k. IsKnown k.centre k.error };

    ghost inverse = { λ p. record { centre = p.centre; error = p.error; slopes = p.slopes } };
}

/// What is known by a centre, an error and slopes, where all are defined.
#[inline(always)]
pub fn joined(centre: Option<i128>, error: Option<i128>, slopes: Option<Slopes>) -> Option<Known>
    requires centre { IfSome centre IsNumber }
    requires error { IfSome error IsError }
    ensures { result ≡ made centre error slopes }
{
    match (centre, error, slopes) {
        (Some(centre), Some(error), Some(slopes)) => Some(Known {
            centre,
            error,
            slopes,
        }),
        _ => None,
    }
}

// Whether both say the same.
#[inline(always)]
fn alike(k: Known, l: Known) -> bool
    ensures { Decides result (k ≡ l) }
{
    k.centre == l.centre && k.error == l.error && same_slopes(k.slopes, l.slopes)
}

/// Whether the same is known of both.
#[inline(always)]
pub fn same_known(k: Option<Known>, l: Option<Known>) -> bool
    ensures { Decides result (k ≡ l) }
{
    match (k, l) {
        (Some(k), Some(l)) => alike(k, l),
        (None, None) => true,
        _ => false,
    }
}

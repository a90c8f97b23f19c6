ghost use Rattle.std.specs.Prelude.{◌≡◌, option_and_then};
ghost use Rattle.ldp_num.specs.Slopes.{of_pair, known_add, known_sub, known_need};

use crate::error::both_errors;
use crate::known::{Known, joined};
use crate::slopes::{differences, sums};
use ldp_num::{add, need, sub};

/// What is known of a sum.
#[inline(always)]
pub fn known_sum(k: Known, l: Known) -> Option<Known>
    ensures { result ≡ known_add k l }
{
    joined(
        add(k.centre, l.centre),
        both_errors(k.error, l.error),
        sums(k.slopes, l.slopes),
    )
}

/// What is known of a difference.
#[inline(always)]
pub fn known_difference(k: Known, l: Known) -> Option<Known>
    ensures { result ≡ known_sub k l }
{
    joined(
        sub(k.centre, l.centre),
        both_errors(k.error, l.error),
        differences(k.slopes, l.slopes),
    )
}

/// What is known of a value that is not below 0.
#[inline(always)]
pub fn known_natural(k: Known) -> Option<Known>
    ensures { result ≡ known_need k }
{
    joined(need(k.centre), Some(k.error), Some(k.slopes))
}

/// What is known of a sum of two items.
#[inline(always)]
pub fn both_sum(k: Option<Known>, l: Option<Known>) -> Option<Known>
    ensures { result ≡ of_pair known_add k l }
{
    match (k, l) {
        (Some(k), Some(l)) => known_sum(k, l),
        _ => None,
    }
}

/// What is known of a difference of two items.
#[inline(always)]
pub fn both_difference(k: Option<Known>, l: Option<Known>) -> Option<Known>
    ensures { result ≡ of_pair known_sub k l }
{
    match (k, l) {
        (Some(k), Some(l)) => known_difference(k, l),
        _ => None,
    }
}

/// What is known of an item that is not below 0.
#[inline(always)]
pub fn one_natural(k: Option<Known>) -> Option<Known>
    ensures { result ≡ option_and_then known_need k }
{
    match k {
        Some(k) => known_natural(k),
        None => None,
    }
}

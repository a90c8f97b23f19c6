ghost use Rattle.std.specs.Prelude.{◌≡◌, ◌++◌, ◌≤◌, length, None, Some, MatchOption, IfSome};
ghost use Rattle.std.specs.List.{flat_map};
ghost use Rattle.ldp_wkt2.specs.Lines.{end, method_text, before, behind};
ghost use Rattle.ldp_wkt2.specs.Fronts.{front_text};
ghost use Rattle.ldp_wkt2.specs.Reading.{rest_behind};

use crate::line::{end, method_parts, parts_before, parts_behind};
use crate::parameter::Parameter;
use ldp_design::Kind;

/// What stands before a parameter, or before the end of the line.
#[derive(Clone, Copy, Debug, PartialEq, Eq)]
pub enum Front {
    Method(Kind),
    /// The text behind the value of a parameter.
    Value(Parameter),
}

/// What follows a front.
#[tactic(auto, using(crate::proofs::Fronts::behind_some, crate::proofs::Fronts::behind_none))]
pub fn past<'a>(text: &'a [u8], front: &[u8]) -> Option<&'a [u8]>
    ensures value { MatchOption result (rest_behind front.now text.now ≡ None)
        (λ rest. rest_behind front.now text.now ≡ Some rest.now) }
    ensures shorter { IfSome result (λ rest. length rest.now ≤ length text.now) }
{
    text.strip_prefix(front)
}

/// What follows a front that is in parts.
fn past_parts<'a>(text: &'a [u8], parts: &[&[u8]]) -> Option<&'a [u8]>
    ensures value { let front = flat_map (λ part. part.now) parts.now in
        MatchOption result (rest_behind front text.now ≡ None)
        (λ rest. rest_behind front text.now ≡ Some rest.now) }
    ensures shorter { IfSome result (λ rest. length rest.now ≤ length text.now) }
{
    let mut left = text;
    for part in parts {
        left = past(left, part)?;
    }
    Some(left)
}

/// What follows a method, from its name on.
pub fn past_method(text: &[u8], kind: Kind) -> Option<&[u8]>
    ensures value { MatchOption result (rest_behind (method_text kind) text.now ≡ None)
        (λ rest. rest_behind (method_text kind) text.now ≡ Some rest.now) }
    ensures shorter { IfSome result (λ rest. length rest.now ≤ length text.now) }
{
    past_parts(text, &method_parts(kind))
}

fn past_front(text: &[u8], front: Front) -> Option<&[u8]>
    ensures value { MatchOption result (rest_behind (front_text front) text.now ≡ None)
        (λ rest. rest_behind (front_text front) text.now ≡ Some rest.now) }
    ensures shorter { IfSome result (λ rest. length rest.now ≤ length text.now) }
{
    match front {
        Front::Method(kind) => past_method(text, kind),
        Front::Value(parameter) => past_parts(text, &parts_behind(parameter)),
    }
}

/// What follows the text between two values: the value of a parameter.
#[tactic(auto, using(crate::proofs::Fronts::behind_append))]
pub fn past_gap(text: &[u8], front: Front, parameter: Parameter) -> Option<&[u8]>
    ensures value { let gap = front_text front ++ before parameter in
        MatchOption result (rest_behind gap text.now ≡ None)
        (λ rest. rest_behind gap text.now ≡ Some rest.now) }
    ensures shorter { IfSome result (λ rest. length rest.now ≤ length text.now) }
{
    past_parts(past_front(text, front)?, &parts_before(parameter))
}

/// What follows the text behind the last value.
#[tactic(auto, using(crate::proofs::Fronts::behind_append))]
pub fn past_end(text: &[u8], front: Front) -> Option<&[u8]>
    ensures value { let last = front_text front ++ end in
        MatchOption result (rest_behind last text.now ≡ None)
        (λ rest. rest_behind last text.now ≡ Some rest.now) }
    ensures shorter { IfSome result (λ rest. length rest.now ≤ length text.now) }
{
    past(past_front(text, front)?, end())
}

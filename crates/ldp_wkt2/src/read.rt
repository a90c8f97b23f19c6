ghost use Rattle.std.specs.Prelude.{◌≡◌, ◌≤◌, List, [], ◌∷◌, length, Ok, Err, IfOk, MatchResult};
ghost use Rattle.std.specs.List.{prefix_len};
ghost use Rattle.ldp_wkt2.specs.declared.crs.Crs.{Crs};
ghost use Rattle.ldp_wkt2.specs.declared.parameter.Parameter.{Parameter};
ghost use Rattle.ldp_wkt2.specs.Values.{IsCrs};
ghost use Rattle.ldp_wkt2.specs.Lines.{behind, crs_text};
ghost use Rattle.ldp_wkt2.specs.Reading.{is_value, run, behind_run, misfit, blank, kind_at};
ghost use Rattle.ldp_wkt2.specs.Reading.{has_method};
ghost use Rattle.ldp_wkt2.specs.Reading.{read_pieces, pieces_from, pieces_of, read_method, crs};
ghost use Rattle.ldp_wkt2.specs.Reading.{IsLineOf};
ghost use Rattle.ldp_wkt2.specs.Fronts.{front_text};

use crate::crs::Crs;
use crate::fault::CrsFault;
use crate::line::start;
use crate::method::parameters_of;
use crate::parameter::Parameter;
use crate::past::{Front, past, past_end, past_gap, past_method};
use crate::value::{blank, valued};
use ldp_design::Kind;

/// The fault at what is left of a text.
fn misfit(text: &[u8], left: &[u8]) -> CrsFault
    requires { length left.now ≤ length text.now }
    ensures { result ≡ misfit (length text.now) left.now }
{
    CrsFault::NotThisProfile(text.len() - left.len())
}

fn run_len(text: &[u8]) -> usize
    ensures value { result ≡ prefix_len is_value text.now }
    ensures within { result ≤ length text.now }
{
    text.iter()
        .take_while(|byte| matches!(**byte, b'0'..=b'9' | b'-' | b'.'))
        .count()
}

/// The longest run of digits, minus and point, and what follows it.
fn cut_run(text: &[u8]) -> (&[u8], &[u8])
    ensures run { result.0.now ≡ run text.now }
    ensures rest { result.1.now ≡ behind_run text.now }
    ensures shorter { length result.1.now ≤ length text.now }
{
    text.split_at(run_len(text))
}

/// The system with the value of the next parameter, and what is left behind it.
fn read_parameter<'a>(
    text: &[u8],
    left: &'a [u8],
    front: Front,
    parameter: Parameter,
    crs: Crs,
) -> Result<(Crs, &'a [u8]), CrsFault>
    requires { length left.now ≤ length text.now }
    ensures step { (ps : List Parameter) →
        let all = read_pieces (length text.now) crs left.now
        (pieces_from (front_text front) (parameter ∷ ps)) in
        MatchResult result
        (λ next. all ≡ read_pieces (length text.now) next.0 next.1.now
        (pieces_from (behind parameter) ps))
        (λ fault. all ≡ Err fault) }
    ensures shorter { IfOk result (λ next. length next.1.now ≤ length text.now) }
{
    let Some(value) = past_gap(left, front, parameter) else {
        return Err(misfit(text, left));
    };
    let (run, rest) = cut_run(value);
    match valued(parameter, crs, run) {
        Some(crs) => Ok((crs, rest)),
        None => Err(misfit(text, value)),
    }
}

/// The system, where the line ends behind its last value.
fn read_end(text: &[u8], left: &[u8], front: Front, crs: Crs) -> Result<Crs, CrsFault>
    requires { length left.now ≤ length text.now }
    ensures { result ≡ read_pieces (length text.now) crs left.now
        (pieces_from (front_text front) []) }
{
    let Some(rest) = past_end(left, front) else {
        return Err(misfit(text, left));
    };
    if rest.is_empty() {
        Ok(crs)
    } else {
        Err(misfit(text, rest))
    }
}

/// The system of what is left from the method on.
fn read_values(text: &[u8], left: &[u8], kind: Kind) -> Result<Crs, CrsFault>
    requires { length left.now ≤ length text.now }
    ensures { result ≡ read_pieces (length text.now) (blank kind) left.now (pieces_of kind) }
{
    let mut crs = blank(kind);
    let mut left = left;
    let mut front = Front::Method(kind);
    for parameter in parameters_of(kind) {
        let (next, rest) = read_parameter(text, left, front, *parameter, crs)?;
        crs = next;
        left = rest;
        front = Front::Value(*parameter);
    }
    read_end(text, left, front, crs)
}

/// Whether the method of a kind stands there.
fn has_method(left: &[u8], kind: Kind) -> bool
    ensures { result ≡ has_method left.now kind }
{
    past_method(left, kind).is_some()
}

/// The kind whose method stands there.
#[tactic(auto, unfolding(crate::specs::Reading::kind_at))]
fn kind_at(left: &[u8]) -> Option<Kind>
    ensures { result ≡ kind_at left.now }
{
    if has_method(left, Kind::Tm) {
        Some(Kind::Tm)
    } else if has_method(left, Kind::Lambert) {
        Some(Kind::Lambert)
    } else if has_method(left, Kind::Hotine) {
        Some(Kind::Hotine)
    } else if has_method(left, Kind::Lambert2) {
        Some(Kind::Lambert2)
    } else {
        None
    }
}

fn read_method(text: &[u8], left: &[u8]) -> Result<Crs, CrsFault>
    requires { length left.now ≤ length text.now }
    ensures { result ≡ read_method (length text.now) left.now }
{
    match kind_at(left) {
        Some(kind) => read_values(text, left, kind),
        None => Err(misfit(text, left)),
    }
}

#[tactic(auto, unfolding(crate::specs::Reading::crs))]
fn read(text: &[u8]) -> Result<Crs, CrsFault>
    ensures exact { result ≡ crs text.now }
{
    match past(text, start()) {
        Some(left) => read_method(text, left),
        None => Err(misfit(text, text)),
    }
}

/// The system whose line this is. Takes no memory.
pub fn read_crs(text: &[u8]) -> Result<Crs, CrsFault>
    ensures exact { result ≡ crs text.now }
    ensures found { IfOk result (IsLineOf text.now) }
    ensures only { (c : Crs) → IsCrs c → text.now ≡ crs_text c → result ≡ Ok c }
{
    read(text)
}

//! What an entry says of the box that it closes.
ghost use Rattle.std.specs.Prelude.{◌≡◌, nat_lt, pos, unsigned_abs, Some, option_map};
ghost use Rattle.std.specs.Bool.{then_some};
ghost use Rattle.ldp_design.specs.Boxes.{LiesIn};
ghost use Rattle.ldp_problem.specs.declared.pair.Pair.{Pair};
ghost use Rattle.ldp_problem.specs.Pairs.{is_smaller};
ghost use Rattle.ldp_problem.specs.Costs.{beyond, lows};
ghost use Rattle.ldp_check.specs.Entries.{leaf_fault, unusable_fault};

use crate::number::count_above;
use crate::reason::Reason;
use ldp_design::{DesignBox, is_single};
use ldp_problem::{Bound, Bounds, Pair};

/// Whether a leaf shows at its cell that no design of the box has a smaller cost than the printed
/// one.
pub fn leaf_fault<B: Bounds>(
    bounds: &mut B,
    b: &DesignBox,
    printed: Pair,
    line: u32,
    cell: u32,
) -> Option<Reason>
    requires { LiesIn (B.problem bounds.old).families b.now }
    ensures fault { result ≡ leaf_fault (B.problem bounds.old) printed line cell b.now }
    ensures same { B.problem bounds.new ≡ B.problem bounds.old }
{
    if cell >= bounds.cells() {
        return Some(Reason::NoSuchCell { line });
    }
    let low = bounds.lower(b, cell);
    match bounds.tolerance() {
        None => leaf_open(printed, line, low),
        Some(tolerance) => {
            let over = over_of(bounds, b, tolerance);
            share_open(printed, line, over, low)
        }
    }
}

/// Without a tolerance the distortions alone are compared.
fn leaf_open(printed: Pair, line: u32, low: i128) -> Option<Reason>
    ensures { result
        ≡ then_some (nat_lt (unsigned_abs low) printed.value) (Reason.LeafOpen line low) }
{
    if low.unsigned_abs() < printed.value {
        return Some(Reason::LeafOpen { line, low });
    }
    None
}

fn share_open(printed: Pair, line: u32, over: u32, low: i128) -> Option<Reason>
    ensures { let shown : Pair = record { over = over; value = unsigned_abs low }
        in result ≡ then_some (is_smaller shown printed) (Reason.ShareOpen line over low) }
{
    let shown = Pair {
        over,
        value: low.unsigned_abs(),
    };
    if shown < printed {
        return Some(Reason::ShareOpen { line, over, low });
    }
    None
}

/// How many cells are beyond the tolerance for each design of a box, also where the box has one
/// design and that is not usable.
fn over_of<B: Bounds>(bounds: &mut B, b: &DesignBox, tolerance: i128) -> u32
    requires lies { LiesIn (B.problem bounds.old).families b.now }
    requires tolerance { option_map pos (B.problem bounds.old).tolerance ≡ Some tolerance }
    ensures value { result
        ≡ beyond (B.problem bounds.old).tolerance (lows (B.problem bounds.old) b.now) }
    ensures same { B.problem bounds.new ≡ B.problem bounds.old }
{
    match bounds.bound(b) {
        Bound::Low { over, .. } => over,
        Bound::Unusable { .. } => count_beyond(bounds, b, tolerance),
    }
}

fn count_beyond<B: Bounds>(bounds: &mut B, b: &DesignBox, tolerance: i128) -> u32
    requires lies { LiesIn (B.problem bounds.old).families b.now }
    requires tolerance { option_map pos (B.problem bounds.old).tolerance ≡ Some tolerance }
    ensures value { result
        ≡ beyond (B.problem bounds.old).tolerance (lows (B.problem bounds.old) b.now) }
    ensures same { B.problem bounds.new ≡ B.problem bounds.old }
{
    let mut over = 0;
    for cell in 0..bounds.cells() {
        let low = bounds.lower(b, cell);
        over += count_above(&tolerance, &low);
    }
    over
}

/// Whether there is no such cell, or the box is not of one design that is undefined there.
pub fn unusable_fault<B: Bounds>(
    bounds: &mut B,
    b: &DesignBox,
    line: u32,
    cell: u32,
) -> Option<Reason>
    requires { LiesIn (B.problem bounds.old).families b.now }
    ensures fault { result ≡ unusable_fault (B.problem bounds.old) line cell b.now }
    ensures same { B.problem bounds.new ≡ B.problem bounds.old }
{
    if cell >= bounds.cells() {
        return Some(Reason::NoSuchCell { line });
    }
    if !is_single(b) {
        return Some(Reason::NotUnusable { line });
    }
    if bounds.defined(&b.first(), cell) {
        return Some(Reason::NotUnusable { line });
    }
    None
}

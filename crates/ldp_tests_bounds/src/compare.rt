ghost use Rattle.ldp_design.specs.Boxes.{LiesIn};
ghost use Rattle.ldp_tests_bounds.specs.Over.{IsOver};

use crate::answer::Answer;
use crate::halves::{all_of, first_of, half_of};
use crate::over::{bound, cost};
use crate::place::Place;
use anyhow::{Result, ensure};
use ldp_design::{DesignBox, Grids, admits};
use ldp_problem::Bounds;

/// Prints for each question whether two bounders answer it alike, and lets them go.
pub fn comparisons<A: Bounds + Drop, B: Bounds + Drop>(
    rt: &impl Print,
    mut left: A,
    mut right: B,
    grids: &Grids,
    count: u32,
    questions: &str,
) -> Result<()>
    requires left { IsOver grids.now.families count (A.problem left) }
    requires right { IsOver grids.now.families count (B.problem right) }
{
    compare_all(rt, &mut left, &mut right, grids, count, questions)
}

fn compare_all<A: Bounds, B: Bounds>(
    rt: &impl Print,
    left: &mut A,
    right: &mut B,
    grids: &Grids,
    count: u32,
    questions: &str,
) -> Result<()>
    requires left { IsOver grids.now.families count (A.problem left.old) }
    requires right { IsOver grids.now.families count (B.problem right.old) }
{
    for question in questions.lines() {
        let answer = compared(left, right, grids, count, Place::of(question)?)?;
        println!(rt; "{question}: {answer}")?;
    }
    Ok(())
}

/// On the way from all designs of a family to one of them, and at that one.
fn compared<A: Bounds, B: Bounds>(
    left: &mut A,
    right: &mut B,
    grids: &Grids,
    count: u32,
    place: Place,
) -> Result<Answer>
    requires left { IsOver grids.now.families count (A.problem left.old) }
    requires right { IsOver grids.now.families count (B.problem right.old) }
    ensures left { IsOver grids.now.families count (A.problem left.new) }
    ensures right { IsOver grids.now.families count (B.problem right.new) }
{
    let mut b = all_of(grids, place.family)?;
    for number in 0..place.halvings {
        if !bounds_agree(left, right, grids, count, &b) {
            return Ok(Answer::Not(number));
        }
        b = half_of(grids, &b, place.high);
    }
    if costs_agree(left, right, grids, count, &b)? {
        Ok(Answer::All(place.halvings.saturating_add(1)))
    } else {
        Ok(Answer::Not(place.halvings))
    }
}

fn bounds_agree<A: Bounds, B: Bounds>(
    left: &mut A,
    right: &mut B,
    grids: &Grids,
    count: u32,
    b: &DesignBox,
) -> bool
    requires left { IsOver grids.now.families count (A.problem left.old) }
    requires right { IsOver grids.now.families count (B.problem right.old) }
    requires lies { LiesIn grids.now.families b.now }
    ensures left { IsOver grids.now.families count (A.problem left.new) }
    ensures right { IsOver grids.now.families count (B.problem right.new) }
{
    bound(left, grids, count, b) == bound(right, grids, count, b)
}

/// At the first design of a box.
fn costs_agree<A: Bounds, B: Bounds>(
    left: &mut A,
    right: &mut B,
    grids: &Grids,
    count: u32,
    b: &DesignBox,
) -> Result<bool>
    requires left { IsOver grids.now.families count (A.problem left.old) }
    requires right { IsOver grids.now.families count (B.problem right.old) }
    ensures left { IsOver grids.now.families count (A.problem left.new) }
    ensures right { IsOver grids.now.families count (B.problem right.new) }
{
    let design = first_of(b);
    ensure!(admits(grids, &design), "no design");
    Ok(cost(left, grids, count, &design) == cost(right, grids, count, &design))
}

ghost use Rattle.std.specs.Prelude.{◌<◌};
ghost use Rattle.ldp_design.specs.Boxes.{LiesIn};
ghost use Rattle.ldp_design.specs.Designs.{IsAdmitted};
ghost use Rattle.ldp_tests_bounds.specs.Over.{IsOver};

use crate::answer::{Answer, bound_of};
use crate::halves::{all_of, first_of, halved};
use crate::holds::{boxes_hold, is_exact};
use crate::over::{bound, cost, defined, lower};
use crate::place::Place;
use anyhow::{Context, Result, bail, ensure};
use ldp_design::{Design, DesignBox, Grids, admits, is_single};
use ldp_problem::Bounds;

/// Prints what a bounder answers to each question, and lets it go.
pub fn answers<B: Bounds + Drop>(
    rt: &impl Print,
    mut bounder: B,
    grids: &Grids,
    count: u32,
    questions: &str,
) -> Result<()>
    requires over { IsOver grids.now.families count (B.problem bounder) }
{
    answer_all(rt, &mut bounder, grids, count, questions)
}

fn answer_all<B: Bounds>(
    rt: &impl Print,
    bounds: &mut B,
    grids: &Grids,
    count: u32,
    questions: &str,
) -> Result<()>
    requires over { IsOver grids.now.families count (B.problem bounds.old) }
{
    for question in questions.lines() {
        let answer = answer(bounds, grids, count, question)?;
        println!(rt; "{question}: {answer}")?;
    }
    Ok(())
}

fn answer<B: Bounds>(bounds: &mut B, grids: &Grids, count: u32, question: &str) -> Result<Answer>
    requires over { IsOver grids.now.families count (B.problem bounds.old) }
    ensures { IsOver grids.now.families count (B.problem bounds.new) }
{
    if let Some(answer) = told(bounds, question) {
        return Ok(answer);
    }
    let (word, rest) = question.split_once(' ').context("a box")?;
    if word == "lower" || word == "defined" {
        let (place, cell) = rest.rsplit_once(' ').context("a cell")?;
        let place = Place::of(place)?;
        let cell = cell.parse()?;
        return answer_at_cell(bounds, grids, count, word, place, cell);
    }
    answer_of_box(bounds, grids, count, word, Place::of(rest)?)
}

/// What a bounder tells of itself.
fn told<B: Bounds>(bounds: &B, question: &str) -> Option<Answer> {
    match question {
        "cells" => Some(Answer::Number(i128::from(bounds.cells()))),
        "asked" => Some(Answer::Number(i128::from(bounds.asked()))),
        "tolerance" => Some(match bounds.tolerance() {
            Some(units) => Answer::Number(units),
            None => Answer::Nothing,
        }),
        _ => None,
    }
}

fn answer_of_box<B: Bounds>(
    bounds: &mut B,
    grids: &Grids,
    count: u32,
    word: &str,
    place: Place,
) -> Result<Answer>
    requires over { IsOver grids.now.families count (B.problem bounds.old) }
    ensures { IsOver grids.now.families count (B.problem bounds.new) }
{
    let all = all_of(grids, place.family)?;
    let b = halved(grids, &all, place.high, place.halvings);
    let design = first_of(&b);
    ensure!(admits(grids, &design), "no design");
    Ok(match word {
        "bound" => Answer::Bound(bound(bounds, grids, count, &b)),
        "cost" => Answer::Bound(bound_of(cost(bounds, grids, count, &design))),
        "single" => Answer::Truth(is_single(&b)),
        "exact" => Answer::Truth(is_exact(bounds, grids, count, &b, &design)),
        "holds" => boxes_hold(bounds, grids, count, &all, place, &b, &design),
        _ => bail!("no question: {word}"),
    })
}

fn answer_at_cell<B: Bounds>(
    bounds: &mut B,
    grids: &Grids,
    count: u32,
    word: &str,
    place: Place,
    cell: u32,
) -> Result<Answer>
    requires over { IsOver grids.now.families count (B.problem bounds.old) }
    ensures { IsOver grids.now.families count (B.problem bounds.new) }
{
    ensure!(cell < count, "no such cell: {cell}");
    let all = all_of(grids, place.family)?;
    let b = halved(grids, &all, place.high, place.halvings);
    if word == "lower" {
        return Ok(Answer::Number(lower(bounds, grids, count, &b, cell)));
    }
    let design = first_of(&b);
    ensure!(admits(grids, &design), "no design");
    Ok(Answer::Truth(defined(bounds, grids, count, &design, cell)))
}

ghost use Rattle.std.specs.Prelude.{◌≡◌, ◌<◌, length, IfOk};
ghost use Rattle.ldp_design.specs.Laws.{AreNumbers as AreNumbers4};
ghost use Rattle.ldp_bound.specs.Kinds.{family_lists};
ghost use Rattle.ldp_distortion.specs.Distortion.{distortions};
ghost use Rattle.ldp_distortion.specs.Inputs.{AreNumbers};
ghost use Rattle.ldp_distortion.specs.Prepared.{HasRoom, distortions_of};
ghost use Rattle.ldp_distortion.specs.Worst.{IsUsable};
ghost use Rattle.ldp_table.specs.Rows.{IsOver};
ghost use Rattle.ldp_answer.specs.JobDesign.{admitted_family};
ghost use Rattle.ldp_answer.specs.Table.{list_inputs, form_text, found_answer, design_answer};
ghost use Rattle.ldp_answer.specs.Table.{table_over};

use crate::answer::Answer;
use crate::form::TableForm;
use crate::rejection::rejection;
use ldp_bound::family_lists;
use ldp_cells::Cells;
use ldp_check::{Reason, other_input};
use ldp_decimal::{Memory, Text};
use ldp_design::{Design, Family, Grids, Inputs4, admits, inputs_at};
use ldp_distortion::{Inputs, Prepared, Worst};
use ldp_job::{Job, Names};
use ldp_num::{Bench, Fix, MOST_STEPS};
use ldp_table::{table_json, table_text};
use std::alloc::Global;

/// What `table` prints: the distortions of a job's design at the cells of a zone. The forest of the
/// job is not looked at.
pub fn table_over(
    alloc: Global,
    form: TableForm,
    cells: &Cells,
    grids: &Grids,
    names: &Names,
    job: &Job,
) -> Result<Answer, Memory>
    requires { 0 < length cells.now.cells }
    ensures { IfOk result (λ answer.
        answer ≡ table_over form cells.now grids.now.families names.now job.now) }
{
    match other_input(names, job) {
        Some(which) => rejection(alloc, &Reason::OtherInput { which }),
        None => design_answer(alloc, form, cells, grids, &job.design),
    }
}

#[tactic(auto, unfolding(crate::specs::Table::design_distortions))]
fn design_answer(
    alloc: Global,
    form: TableForm,
    cells: &Cells,
    grids: &Grids,
    d: &Design,
) -> Result<Answer, Memory>
    requires { 0 < length cells.now.cells }
    ensures { IfOk result (λ answer. answer
        ≡ design_answer form cells.now d.now (admitted_family grids.now.families d.now)) }
{
    if !admits(grids, d) {
        return rejection(alloc, &Reason::NotAdmissible);
    }
    let at = list_inputs(&inputs_at(grids, d));
    family_answer(alloc, form, cells, grids.family(d.family), at)
}

/// The table of the design of a family with these inputs, or its first undefined cell.
fn family_answer(
    alloc: Global,
    form: TableForm,
    cells: &Cells,
    family: &Family,
    at: Inputs,
) -> Result<Answer, Memory>
    requires numbers { AreNumbers at }
    requires some { 0 < length cells.now.cells }
    ensures { let found = distortions (family_lists family.now) at cells.now.cells in
        IfOk result (λ answer. answer ≡ found_answer form cells.now found) }
{
    let lists = family_lists(alloc, family)?;
    let prepared = Prepared::new(alloc, lists, cells)?;
    let mut bench = Bench::with_room(alloc, MOST_STEPS)?;
    found_answer(alloc, form, &prepared, &mut bench, cells, at)
}

fn list_inputs(at: &Inputs4) -> Inputs
    requires { AreNumbers4 at.now }
    ensures value { result ≡ list_inputs at.now }
    ensures numbers { AreNumbers result }
{
    Inputs {
        lat: at.lat,
        lon: at.lon,
        azimuth: at.azimuth,
        scale: at.scale,
    }
}

/// The same over prepared cells.
fn found_answer(
    alloc: Global,
    form: TableForm,
    prepared: &Prepared,
    bench: &mut Bench<Fix>,
    cells: &Cells,
    at: Inputs,
) -> Result<Answer, Memory>
    requires numbers { AreNumbers at }
    requires room { HasRoom prepared.now.lists bench.old.room }
    requires some { 0 < length cells.now.cells }
    requires over { IsOver prepared.now cells.now.cells }
    requires same { distortions_of prepared.now at
        ≡ distortions prepared.now.lists at cells.now.cells }
    ensures { let found = distortions prepared.now.lists at cells.now.cells in
        IfOk result (λ answer. answer ≡ found_answer form cells.now found) }
{
    match prepared.worst(bench, at) {
        Worst::Is { .. } => Ok(Answer {
            rejected: false,
            text: form_text(alloc, form, prepared, bench, cells, at)?,
        }),
        Worst::Unusable { cell } => rejection(alloc, &Reason::DesignUnusable { cell }),
    }
}

fn form_text(
    alloc: Global,
    form: TableForm,
    prepared: &Prepared,
    bench: &mut Bench<Fix>,
    cells: &Cells,
    at: Inputs,
) -> Result<Text, Memory>
    requires numbers { AreNumbers at }
    requires room { HasRoom prepared.now.lists bench.old.room }
    requires some { 0 < length cells.now.cells }
    requires over { IsOver prepared.now cells.now.cells }
    requires usable { IsUsable (distortions prepared.now.lists at cells.now.cells) }
    ensures { let found = distortions prepared.now.lists at cells.now.cells in
        IfOk result (λ text. text ≡ form_text form cells.now found) }
{
    match form {
        TableForm::Lines => table_text(alloc, prepared, bench, cells, at),
        TableForm::Json => table_json(alloc, prepared, bench, cells, at),
    }
}

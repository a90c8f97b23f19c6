ghost use Rattle.std.specs.Prelude.{◌≡◌, ◌<◌, length, IfOk};
ghost use Rattle.ldp_distortion.specs.Worst.{HasNumber, IsWithin};
ghost use Rattle.ldp_answer.specs.Works.{Works};
ghost use Rattle.ldp_answer.specs.Eval.{central_worst, worst_answer, eval_over};

use crate::answer::Answer;
use crate::cells::area_over;
use crate::central::Central;
use crate::eval_text::eval_text;
use crate::fault::WorkFault;
use ldp_cells::Cells;
use ldp_distortion::{Prepared, Worst};
use ldp_heights::Heights;
use ldp_message::Refusal;
use ldp_num::{Bench, MOST_STEPS};
use ldp_tm::lists;
use std::alloc::{AllocError, Global};

/// What `eval` prints: the worst of one transverse Mercator design over the cells of a grid.
pub fn eval_over(alloc: Global, grid: &Heights, design: &Central) -> Result<Answer, WorkFault>
    ensures { Works result (eval_over grid.now design.now) }
{
    let cells = area_over(alloc, grid)?;
    let worst = central_worst(alloc, &cells, design)?;
    tell(alloc, &cells, worst)
}

/// The worst of one transverse Mercator design over the cells.
#[tactic(auto, unfolding(crate::specs::Eval::central_worst))]
fn central_worst(alloc: Global, cells: &Cells, design: &Central) -> Result<Worst, AllocError>
    requires { 0 < length cells.now.cells }
    ensures worst { IfOk result (λ worst. worst ≡ central_worst cells.now design.now) }
    ensures number { IfOk result HasNumber }
    ensures within { IfOk result (IsWithin (length cells.now.cells)) }
{
    let prepared = Prepared::new(alloc, lists(alloc)?, cells)?;
    let mut bench = Bench::with_room(alloc, MOST_STEPS)?;
    Ok(prepared.worst(&mut bench, design.inputs()))
}

/// The answer for a worst.
fn tell(alloc: Global, cells: &Cells, worst: Worst) -> Result<Answer, WorkFault>
    requires number { HasNumber worst }
    requires within { IsWithin (length cells.now.cells) worst }
    ensures { Works result (worst_answer cells.now worst) }
{
    match worst {
        Worst::Is { value, cell } => {
            let at = cells.get(cell);
            let text = eval_text(alloc, cells.len(), cells.missing(), value, at.row, at.col)?;
            Ok(Answer {
                rejected: false,
                text,
            })
        }
        Worst::Unusable { .. } => Err(WorkFault::Refused(Refusal::NoUsableDesign)),
    }
}

ghost use Rattle.std.specs.Prelude.{◌≡◌, ◌<◌, ℕ, pos, List, length};
ghost use Rattle.ldp_cells.specs.Range.{raised};
ghost use Rattle.ldp_cells.specs.declared.cell.Cell.{Cell};
ghost use Rattle.ldp_distortion.specs.Inputs.{AreNumbers};
ghost use Rattle.ldp_distortion.specs.Prepared.{HasRoom, prepared, distortions_of};
ghost use Rattle.ldp_tolerance.specs.Heights.{MoveOnce, lowered};
ghost use Rattle.ldp_tolerance.specs.Slack.{slack_from, slack_of, slack_over, IsGreatestOf};

use crate::side::{Side, Slack};
use ldp_distortion::{Inputs, Prepared, Worst};
use ldp_num::{Bench, Fix};

/// The slack of a design, from cells that were prepared at their lowered heights and at their
/// raised ones. Runs the design list twice. Takes no memory.
pub fn slack(low: &Prepared, high: &Prepared, bench: &mut Bench<Fix>, at: Inputs) -> Slack
    requires numbers { AreNumbers at }
    requires low_room { HasRoom low.now.lists bench.old.room }
    requires high_room { HasRoom high.now.lists bench.old.room }
    requires low_some { 0 < length low.now.results }
    requires high_some { 0 < length high.now.results }
    ensures value { result ≡ slack_of (distortions_of low.now at) (distortions_of high.now at) }
    ensures over { (cells : List Cell) (t : ℕ)
        → low.now ≡ prepared low.now.lists (lowered t cells)
        → high.now ≡ prepared low.now.lists (raised (pos t) cells)
        → result ≡ slack_over low.now.lists at cells t }
    ensures greatest { (cells : List Cell) (t : ℕ) → MoveOnce low.now.lists
        → low.now ≡ prepared low.now.lists (lowered t cells)
        → high.now ≡ prepared low.now.lists (raised (pos t) cells)
        → IsGreatestOf low.now.lists at cells t result }
    ensures room { bench.new.room ≡ bench.old.room }
{
    let at_low = low.worst(bench, at);
    let at_high = high.worst(bench, at);
    greater(at_low, at_high)
}

/// The greater of two worsts; of equal ones that at the earlier cell, and at one cell the lower.
fn greater(low: Worst, high: Worst) -> Slack
    ensures { result ≡ slack_from low high }
{
    match (low, high) {
        (
            Worst::Is { value, cell },
            Worst::Is {
                value: other,
                cell: at,
            },
        ) => {
            if other > value || (other >= value && at < cell) {
                Slack::Is {
                    value: other,
                    cell: at,
                    side: Side::High,
                }
            } else {
                Slack::Is {
                    value,
                    cell,
                    side: Side::Low,
                }
            }
        }
        (Worst::Is { .. }, Worst::Unusable { cell }) => Slack::Unusable { cell },
        (Worst::Unusable { cell }, Worst::Is { .. }) => Slack::Unusable { cell },
        (Worst::Unusable { cell }, Worst::Unusable { cell: other }) => Slack::Unusable {
            cell: cell.min(other),
        },
    }
}

ghost use Rattle.std.specs.Prelude.{◌≡◌, ◌<◌, IfSome, IfNone, IfOk, IfErr, None};
ghost use Rattle.ldp_sweep.specs.Peaks.{IsAtCell, IsFirstUndefined};

use crate::peak::Peak;
use crate::sweep::Sweep;
use crate::undefined::Undefined;

/// The highest of the first cell and the hints, as far as these are cells with a value.
pub(crate) fn hinted<S: Sweep>(sweep: &mut S, hints: &[u32]) -> Result<Peak, Undefined>
    requires { 0 < (S.cut sweep.old).cells }
    ensures at_cell { IfOk result (IsAtCell (S.cut sweep.old)) }
    ensures undefined { IfErr result (λ e. IsFirstUndefined (S.cut sweep.old) e.cell) }
    ensures same { S.cut sweep.new ≡ S.cut sweep.old }
{
    let Some(mut peak) = peak_at(sweep, 0) else {
        return Err(Undefined { cell: 0 });
    };
    for hint in hints {
        if let Some(other) = hint_at(sweep, *hint) {
            peak = peak.or(other);
        }
    }
    Ok(peak)
}

fn hint_at<S: Sweep>(sweep: &mut S, hint: u32) -> Option<Peak>
    ensures at_cell { IfSome result (IsAtCell (S.cut sweep.old)) }
    ensures same { S.cut sweep.new ≡ S.cut sweep.old }
{
    if hint < sweep.cells() {
        return peak_at(sweep, hint);
    }
    None
}

/// The value at a cell with that cell.
pub(crate) fn peak_at<S: Sweep>(sweep: &mut S, cell: u32) -> Option<Peak>
    requires { cell < (S.cut sweep.old).cells }
    ensures at_cell { IfSome result (IsAtCell (S.cut sweep.old)) }
    ensures cell { IfSome result (λ peak. peak.cell ≡ cell) }
    ensures undefined { IfNone result ((S.cut sweep.old).value cell ≡ None) }
    ensures same { S.cut sweep.new ≡ S.cut sweep.old }
{
    match sweep.value(cell) {
        Some(value) => Some(Peak { value, cell }),
        None => None,
    }
}

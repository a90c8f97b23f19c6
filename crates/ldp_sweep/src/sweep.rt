ghost use Rattle.std.specs.Prelude.{◌≡◌, ◌<◌, ◌≤◌, length, IfSome};
ghost use Rattle.ldp_sweep.specs.Cut.{Cut, IsSpan};

use crate::enclosure::Enclosure;
use crate::stretch::Stretch;

/// Who knows the values at cells, numbered from 0, and the spans of stretches of them. No call
/// changes the cut.
pub trait Sweep {
    /// The number of cells, the value at each where it is defined, what no value exceeds, and the
    /// stretches into which the cells are cut.
    ghost cut: { Self → Cut };

    fn cells(&self) -> u32
        ensures { result ≡ (cut self.now).cells };

    fn nodes(&self) -> &[Stretch]
        ensures { result.now ≡ (cut self.now).nodes };

    /// The value at a cell. None: it is undefined.
    fn value(&mut self, cell: u32) -> Option<u128>
        requires { cell < (cut self.old).cells }
        ensures value { result ≡ (cut self.old).value cell }
        ensures small { IfSome result (λ value. value ≤ (cut self.old).limit) }
        ensures same { cut self.new ≡ cut self.old };

    /// Bounds of the values at the cells of the node at this place, all of them defined. None:
    /// that is not known.
    fn span(&mut self, at: usize) -> Option<Enclosure>
        requires { at < length (cut self.old).nodes }
        ensures within { IfSome result (IsSpan (cut self.old) at) }
        ensures same { cut self.new ≡ cut self.old };
}

ghost use Rattle.std.specs.Prelude.{◌≡◌};
ghost use Rattle.ldp_distortion.specs.Inputs.{AreNumbers, design_inputs as inputs_of_design};
ghost use Rattle.ldp_distortion.specs.Inputs.{cell_inputs as inputs_of_cell, numbers};
ghost use Rattle.ldp_cells.specs.Range.{IsInRange};

use ldp_cells::Cell;
use ldp_num::{Fix, eta, radians};

/// The inputs of a design list: angles in radians and the scale factor, all in units of 10^-15
/// (Snyder PP 1395, chapters 8, 9 and 15).
#[derive(Clone, Copy, Debug, PartialEq, Eq)]
pub struct Inputs {
    /// The latitude of the standard parallel (Lambert) or of the centre (Hotine).
    pub lat: i128,
    /// The longitude of the central meridian (transverse Mercator) or of the centre (Hotine).
    pub lon: i128,
    /// The azimuth of the central line at the centre (Hotine), clockwise from north.
    pub azimuth: i128,
    /// The scale factor on the central meridian, on the standard parallel or at the centre.
    pub scale: i128,
}

/// The inputs of a design list, as plain carriers.
pub fn design_inputs(at: &Inputs) -> [Fix; 4]
    requires { AreNumbers at.now }
    ensures { numbers result ≡ inputs_of_design at.now }
{
    [
        Fix { n: at.lat },
        Fix { n: at.lon },
        Fix { n: at.azimuth },
        Fix { n: at.scale },
    ]
}

/// The inputs of the cell list at a cell, as plain carriers.
pub fn cell_inputs(cell: &Cell) -> [Fix; 3]
    requires { IsInRange cell.now }
    ensures { numbers result ≡ inputs_of_cell cell.now }
{
    [
        Fix { n: radians(cell.y) },
        Fix { n: radians(cell.x) },
        Fix { n: eta(cell.mm) },
    ]
}

ghost use Rattle.std.specs.Prelude.{◌≡◌};
ghost use Rattle.ldp_distortion.specs.Inputs.{AreNumbers};
ghost use Rattle.ldp_quantity.specs.Quantity.{IsLongitude, IsScale};
ghost use Rattle.ldp_answer.specs.Central.{CentralDesign, central_of, central_inputs};

use ldp_distortion::Inputs;
use ldp_num::radians;
use ldp_quantity::{Unfit, read_longitude, read_scale};
use std::marker::Model;

/// A transverse Mercator design that two words name, its numbers in their ranges.
#[derive(Drop)]
pub struct Central {
    longitude: i128,
    scale: i128,
}

impl Model for Central {
    ghost Value = { CentralDesign };

    ghost view = { λ c. record { longitude = c.longitude; scale = c.scale } };

    ghost invariant = { λ c. IsLongitude c.longitude × IsScale c.scale };
}

impl Central {
    /// The design with this central meridian, in degrees, and this scale factor on it.
    pub fn of_words(longitude: &[u8], scale: &[u8]) -> Result<Central, Unfit>
        ensures { result ≡ central_of longitude.now scale.now }
    {
        let longitude = read_longitude(longitude)?;
        let scale = read_scale(scale)?;
        Ok(Central { longitude, scale })
    }

    /// The inputs of the design list.
    pub fn inputs(&self) -> Inputs
        ensures value { result ≡ central_inputs self.now }
        ensures numbers { AreNumbers result }
    {
        Inputs {
            lat: 0,
            lon: radians(self.longitude),
            azimuth: 0,
            scale: self.scale,
        }
    }
}

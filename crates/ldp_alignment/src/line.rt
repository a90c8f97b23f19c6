ghost use Rattle.std.specs.Prelude.{◌≡◌};
ghost use Rattle.ldp_alignment.specs.Line.{IsLine};

use crate::station::Station;
use std::marker::Model;

/// A line, seen as the list of its stations: 2 to 100,000, none of a chainage below the one before.
#[derive(Drop)]
pub struct Line {
    stations: Vec<Station>,
}

impl Model for Line {
    ghost use Rattle.std.specs.Prelude.{List};
    ghost use Rattle.ldp_alignment.specs.Line.{IsLine};
    ghost use Rattle.ldp_alignment.specs.declared.station.Station.{Station};

    ghost Value = { List Station };

    ghost view = { λ line. line.stations.items };

    ghost invariant = { λ line. IsLine line.stations.items };
}

impl Line {
    pub(crate) fn new(stations: Vec<Station>) -> Self
        requires { IsLine stations.items }
        ensures { result ≡ stations.items }
    {
        Line { stations }
    }

    /// The stations in order.
    pub fn stations(&self) -> &[Station]
        ensures value { result.now ≡ self.now }
        ensures keeps { IsLine self.now }
    {
        &self.stations
    }
}

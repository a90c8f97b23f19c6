ghost use Rattle.std.specs.Prelude.{◌≡◌, Some, None};
ghost use Rattle.ldp_tokens.specs.Seen.{seen};
ghost use Rattle.ldp_alignment.specs.Seen.{Leaves};
ghost use Rattle.ldp_alignment.specs.Reading.{begin, first, second, third, step, finished};

use crate::coordinates::{chainage, latitude, longitude};
use crate::fault::LineFault;
use crate::line::Line;
use crate::station::Station;
use ldp_tokens::Token;
use std::alloc::Global;
use std::marker::Model;

/// The most stations of a line.
const MOST_STATIONS: usize = 100_000;

/// A reader of a line's tokens, seen as what was read so far.
#[derive(Drop)]
pub struct Reader {
    stations: Vec<Station>,
    last: i64,
    x: Option<i128>,
    y: Option<i128>,
}

impl Model for Reader {
    ghost use Rattle.ldp_alignment.specs.Reading.{Progress};
    ghost use Rattle.ldp_alignment.specs.Seen.{IsProgress};

    ghost Value = { Progress };

    ghost view = { λ reader. record {
      stations = reader.stations.items;
      last = reader.last;
      x = reader.x;
      y = reader.y;
    } };

    ghost invariant = { λ reader. IsProgress record {
      stations = reader.stations.items;
      last = reader.last;
      x = reader.x;
      y = reader.y;
    } };
}

impl Reader {
    /// Before the first token.
    pub fn new(alloc: Global) -> Self
        ensures { result ≡ begin }
    {
        Reader {
            stations: Vec::new(alloc),
            last: 0,
            x: None,
            y: None,
        }
    }

    /// Takes one token more.
    #[tactic(auto, unfolding(crate::specs::Reading::step))]
    pub fn take(&mut self, token: &Token<'_>) -> Result<(), LineFault>
        ensures { Leaves result self.new (step self.old (seen token.now)) }
    {
        match (self.x, self.y) {
            (None, _) => self.first(token),
            (Some(_), None) => self.second(token),
            (Some(x), Some(y)) => self.third(x, y, token),
        }
    }

    /// The line, where the text of so many bytes ends.
    #[tactic(auto, unfolding(crate::specs::Reading::finished))]
    pub fn finish(self, end: usize) -> Result<Line, LineFault>
        ensures { result ≡ finished end self }
    {
        let Reader {
            stations,
            last: _,
            x,
            y: _,
        } = self;
        if x.is_some() {
            return Err(LineFault::Unfinished(end));
        }
        if stations.len() < 2 {
            return Err(LineFault::TooFew(stations.len() as u32));
        }
        Ok(Line::new(stations))
    }

    /// The longitude of a station.
    #[tactic(auto, unfolding(crate::specs::Reading::first))]
    fn first(&mut self, token: &Token<'_>) -> Result<(), LineFault>
        ensures { Leaves result self.new (first self.old (seen token.now)) }
    {
        if self.stations.len() >= MOST_STATIONS {
            return Err(LineFault::TooMany);
        }
        let x = longitude(token)?;
        self.x = Some(x);
        Ok(())
    }

    /// The latitude of a station.
    #[tactic(auto, unfolding(crate::specs::Reading::second))]
    fn second(&mut self, token: &Token<'_>) -> Result<(), LineFault>
        ensures { Leaves result self.new (second self.old (seen token.now)) }
    {
        let y = latitude(token)?;
        self.y = Some(y);
        Ok(())
    }

    /// The chainage of a station, and with it the whole station.
    #[tactic(auto, unfolding(crate::specs::Reading::third))]
    fn third(&mut self, x: i128, y: i128, token: &Token<'_>) -> Result<(), LineFault>
        requires x { self.old.x ≡ Some x }
        requires y { self.old.y ≡ Some y }
        ensures { Leaves result self.new (third x y self.old (seen token.now)) }
    {
        let along = chainage(token)?;
        if along < self.last {
            return Err(LineFault::Backward(self.stations.len() as u32));
        }
        self.stations.push(Station {
            x,
            y,
            mm: 0,
            chainage: along,
        })?;
        self.last = along;
        self.x = None;
        self.y = None;
        Ok(())
    }
}

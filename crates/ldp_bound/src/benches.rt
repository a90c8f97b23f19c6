ghost use Rattle.ldp_num.specs.Steps.{most_steps};
ghost use Rattle.std.specs.Prelude.{◌≡◌};

use crate::Memory;
use crate::design_runs::Runs;
use ldp_num::{Bench, Fix, MOST_STEPS};
use ldp_range::{Range, Twin};
use std::alloc::Global;

/// The runs of design lists, and a bench of joint lists for each carrier, with room for every list.
#[derive(Drop)]
pub struct Benches {
    pub runs: Runs,
    pub numbers: Bench<Fix>,
    pub ranges: Bench<Range>,
    pub twins: Bench<Twin>,
    ghost numbers_room: { numbers.room ≡ most_steps },
    ghost ranges_room: { ranges.room ≡ most_steps },
    ghost twins_room: { twins.room ≡ most_steps },
}

impl Benches {
    /// No run yet.
    pub fn new(alloc: Global) -> Result<Benches, Memory> {
        Ok(Benches {
            runs: Runs::new(alloc)?,
            numbers: Bench::with_room(alloc, MOST_STEPS)?,
            ranges: Bench::with_room(alloc, MOST_STEPS)?,
            twins: Bench::with_room(alloc, MOST_STEPS)?,
        })
    }
}

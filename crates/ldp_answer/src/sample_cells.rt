ghost use Rattle.std.specs.Prelude.{◌≡◌, ◌<◌, length, IfOk};
ghost use Rattle.ldp_zone.specs.Grammar.{zone_of};
ghost use Rattle.ldp_heights.specs.Reading.{heights_of};
ghost use Rattle.ldp_message.specs.Refusal.{or_refused};
ghost use Rattle.ldp_message.specs.declared.refusal.Refusal.TheVariants as refusals;
ghost use Rattle.ldp_answer.specs.Works.{Works};
ghost use Rattle.ldp_answer.specs.SampleInputs.{IsSampleNumber, sample_zone, sample_grid};
ghost use Rattle.ldp_answer.specs.Sample.{sample_cells};

use crate::cells::cells_over;
use crate::fault::WorkFault;
use crate::sample_grid::sample_grid;
use ldp_cells::Cells;
use ldp_heights::{HeightFault, Heights, read_heights};
use ldp_message::Refusal;
use ldp_zone::{Zone, ZoneFault, read_zone};
use std::alloc::Global;

/// The cells of a sample, whose zone and heights are read from their texts.
pub fn sample_cells(alloc: Global, number: u32) -> Result<Cells, WorkFault>
    requires { IsSampleNumber number }
    ensures cells { Works result (sample_cells number) }
    ensures some { IfOk result (λ list. 0 < length list.cells) }
{
    let zone = sample_zone(alloc)?;
    let heights = sample_heights(alloc, number)?;
    cells_over(alloc, &zone, &heights)
}

fn sample_zone(alloc: Global) -> Result<Zone, WorkFault>
    ensures { Works result (or_refused refusals.RefusedZone (zone_of sample_zone)) }
{
    match read_zone(alloc, zone_text()) {
        Ok(zone) => Ok(zone),
        Err(ZoneFault::Memory) => Err(WorkFault::Memory),
        Err(fault) => Err(WorkFault::Refused(Refusal::RefusedZone(fault))),
    }
}

#[tactic(auto, unfolding(crate::specs::SampleInputs::sample_zone))]
fn zone_text() -> &'static [u8]
    ensures { result.now ≡ sample_zone }
{
    b"POLYGON ((-106 39.5, -105 39.5, -105 40.25, -106 40.25, -106 39.5))"
}

fn sample_heights(alloc: Global, number: u32) -> Result<Heights, WorkFault>
    requires { IsSampleNumber number }
    ensures { Works result (or_refused refusals.RefusedHeights (heights_of (sample_grid number))) }
{
    let text = sample_grid(alloc, number)?;
    match read_heights(alloc, text.bytes()) {
        Ok(heights) => Ok(heights),
        Err(HeightFault::Memory) => Err(WorkFault::Memory),
        Err(fault) => Err(WorkFault::Refused(Refusal::RefusedHeights(fault))),
    }
}

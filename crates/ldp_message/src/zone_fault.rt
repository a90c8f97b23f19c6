ghost use Rattle.std.specs.Prelude.{◌≡◌, ◌≤◌, ◌+◌, ◌++◌, length};
ghost use Rattle.ldp_message.specs.ZoneFault.{zone_fault_text};

use crate::line::Line;
use ldp_zone::ZoneFault;

/// Appends the text of a fault of a zone.
pub fn push_zone_fault(line: &mut Line, fault: ZoneFault)
    requires { length line.old ≤ 16 }
    ensures text { line.new ≡ line.old ++ zone_fault_text fault }
    ensures short { length line.new ≤ length line.old + 33 }
{
    match fault {
        ZoneFault::NotAPolygon(place) => line.push_count(b"NotAPolygon ", place as u64),
        ZoneFault::Measured(place) => line.push_count(b"Measured ", place as u64),
        ZoneFault::BadNumber(place) => line.push_count(b"BadNumber ", place as u64),
        ZoneFault::OutOfRange(place) => line.push_count(b"OutOfRange ", place as u64),
        ZoneFault::OpenRing(ring) => line.push_count(b"OpenRing ", u64::from(ring)),
        ZoneFault::ShortRing(ring) => line.push_count(b"ShortRing ", u64::from(ring)),
        ZoneFault::TooManyPoints => line.push(b"TooManyPoints"),
        ZoneFault::Trailing(place) => line.push_count(b"Trailing ", place as u64),
        ZoneFault::Memory => line.push(b"Memory"),
    }
}

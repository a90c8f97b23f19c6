ghost use Rattle.std.specs.Prelude.{◌≡◌, ◌≢◌};
ghost use Rattle.ldp_zone.specs.Grammar.{zone_of};

use crate::fault::ZoneFault;
use crate::reader::Reader;
use crate::zone::Zone;
use ldp_tokens::Tokens;
use std::alloc::Global;

/// Reads the text of a polygon or multipolygon (OGC 06-103r4) over longitude and latitude in
/// degrees.
#[tactic(auto, using(crate::proofs::Agreement::reads_zone), unfolding(crate::proofs::TokensLeft::rings_from))]
pub fn read_zone(alloc: Global, text: &[u8]) -> Result<Zone, ZoneFault>
    ensures { result ≢ Err ZoneFault.Memory → result ≡ zone_of text.now }
{
    let mut reader = Reader::new(alloc);
    let mut tokens = Tokens::of_text(text, b"(),");
    while let Some(token) = tokens.next() {
        reader.take(&token)?;
    }
    reader.finish(text.len())
}

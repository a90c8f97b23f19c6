ghost use Rattle.std.specs.Prelude.{◌≡◌, ◌≢◌};
ghost use Rattle.ldp_heights.specs.Reading.{heights_of};

use crate::fault::HeightFault;
use crate::grid::Heights;
use crate::reader::HeightReader;
use std::alloc::Global;

/// Reads the text of an Esri ASCII grid of ellipsoid heights in metres, over degrees.
pub fn read_heights(alloc: Global, text: &[u8]) -> Result<Heights, HeightFault>
    ensures exact { result ≢ Err HeightFault.Memory → result ≡ heights_of text.now }
{
    let mut reader = HeightReader::new(alloc);
    reader.feed(text)?;
    reader.finish()
}

ghost use Rattle.std.specs.Prelude.{◌≡◌, ◌≢◌};
ghost use Rattle.ldp_alignment.specs.Reading.{line_of};

use crate::fault::LineFault;
use crate::line::Line;
use crate::reader::Reader;
use ldp_tokens::Tokens;
use std::alloc::Global;

/// Reads the text of a line: for each station its longitude and latitude in degrees and its
/// chainage in metres, parted by white space.
#[tactic(auto, unfolding(crate::specs::Reading::line_of, crate::specs::Reading::stations_from))]
pub fn read_line(alloc: Global, text: &[u8]) -> Result<Line, LineFault>
    ensures { result ≢ Err LineFault.Memory → result ≡ line_of text.now }
{
    let mut reader = Reader::new(alloc);
    let mut tokens = Tokens::of_text(text, b"");
    while let Some(token) = tokens.next() {
        reader.take(&token)?;
    }
    reader.finish(text.len())
}

ghost use Rattle.std.specs.Prelude.{◌≡◌, IfOk};
ghost use Rattle.ldp_heights.specs.Header.{begins_height, begins_number, is_met, no_words};
ghost use Rattle.ldp_heights.specs.Header.{word_at, nodata_of, layout_of};
ghost use Rattle.ldp_heights.specs.Known.{token_at};
ghost use Rattle.ldp_heights.specs.Stages.{with_known};
ghost use Rattle.ldp_heights.specs.Ranges.{AreInRange, IsLayout};
ghost use Rattle.ldp_tokens.specs.Seen.{seen};
ghost use Rattle.ldp_heights.specs.Seen.{class_seen, name_seen, header_seen, layout_seen};
ghost use Rattle.ldp_heights.specs.Seen.{result_seen};

use crate::class::{Class, class_of, is_nan};
use crate::coordinate::{Coordinate, read_coordinate, read_spacing};
use crate::fault::{HeightFault, Word};
use crate::header_word::{HeaderWord, header_word};
use crate::layout::{Layout, MOST_PLACES};
use crate::open_token::OpenToken;
use ldp_tokens::Token;

/// The words met so far, with their values.
#[derive(Clone, Copy)]
pub struct Header {
    pub ncols: Option<u32>,
    pub nrows: Option<u32>,
    pub x: Option<Coordinate>,
    pub y: Option<Coordinate>,
    pub cellsize: Option<u64>,
    pub nodata: Option<Class>,
}

/// A missing height where the header names none: -9999 metres, in millimetres.
const MISSING: i32 = -9_999_000;

impl Header {
    /// A header of which no word was met.
    pub fn empty() -> Self
        ensures value { header_seen result ≡ no_words }
        ensures range { AreInRange (header_seen result) }
    {
        Header {
            ncols: None,
            nrows: None,
            x: None,
            y: None,
            cellsize: None,
            nodata: None,
        }
    }

    /// Whether a word was met, or the other form of its coordinate.
    fn is_met(&self, word: HeaderWord) -> bool
        ensures { result ≡ is_met (header_seen self.now) (name_seen word) }
    {
        match word {
            HeaderWord::Ncols => self.ncols.is_some(),
            HeaderWord::Nrows => self.nrows.is_some(),
            HeaderWord::XllCorner => self.x.is_some(),
            HeaderWord::XllCenter => self.x.is_some(),
            HeaderWord::YllCorner => self.y.is_some(),
            HeaderWord::YllCenter => self.y.is_some(),
            HeaderWord::Cellsize => self.cellsize.is_some(),
            HeaderWord::NodataValue => self.nodata.is_some(),
        }
    }

    /// The word that a token is, which was not met before.
    #[tactic(auto, unfolding(crate::specs::Header::word_at))]
    pub fn word_at(&self, token: &Token<'_>) -> Result<HeaderWord, HeightFault>
        ensures { result_seen name_seen result ≡ word_at (header_seen self.now) (seen token.now) }
    {
        match header_word(token.bytes) {
            None => Err(HeightFault::UnknownWord(token.place)),
            Some(word) if self.is_met(word) => Err(HeightFault::RepeatedWord(token.place)),
            Some(word) => Ok(word),
        }
    }

    /// The words met, with a value for this one.
    #[tactic(auto, unfolding(crate::specs::Stages::with_known, crate::specs::Header::with_value))]
    pub fn with_value(
        &self,
        word: HeaderWord,
        place: usize,
        known: &OpenToken,
    ) -> Result<Header, HeightFault>
        ensures value { result_seen header_seen result
            ≡ with_known (header_seen self.now) (name_seen word) place known.now }
        ensures range { AreInRange (header_seen self.now)
            → IfOk result (λ met. AreInRange (header_seen met)) }
    {
        let met = *self;
        let token = known.token(place);
        match word {
            HeaderWord::Ncols => Ok(Header {
                ncols: Some(known.count(place)?),
                ..met
            }),
            HeaderWord::Nrows => Ok(Header {
                nrows: Some(known.count(place)?),
                ..met
            }),
            HeaderWord::XllCorner => Ok(Header {
                x: Some(Coordinate::Corner(read_coordinate(&token)?)),
                ..met
            }),
            HeaderWord::XllCenter => Ok(Header {
                x: Some(Coordinate::Centre(read_coordinate(&token)?)),
                ..met
            }),
            HeaderWord::YllCorner => Ok(Header {
                y: Some(Coordinate::Corner(read_coordinate(&token)?)),
                ..met
            }),
            HeaderWord::YllCenter => Ok(Header {
                y: Some(Coordinate::Centre(read_coordinate(&token)?)),
                ..met
            }),
            HeaderWord::Cellsize => Ok(Header {
                cellsize: Some(read_spacing(&token)?),
                ..met
            }),
            HeaderWord::NodataValue => Ok(Header {
                nodata: Some(read_nodata(&token)?),
                ..met
            }),
        }
    }

    /// What the header says, where no word is missing and the places are not too many.
    #[tactic(auto, unfolding(crate::specs::Header::layout_of))]
    pub fn layout(&self) -> Result<Layout, HeightFault>
        requires { AreInRange (header_seen self.now) }
        ensures value { result_seen layout_seen result ≡ layout_of (header_seen self.now) }
        ensures range { IfOk result (λ layout. IsLayout (layout_seen layout)) }
    {
        let cols = self.ncols.ok_or(HeightFault::MissingWord(Word::Ncols))?;
        let rows = self.nrows.ok_or(HeightFault::MissingWord(Word::Nrows))?;
        let x = self.x.ok_or(HeightFault::MissingWord(Word::X))?;
        let y = self.y.ok_or(HeightFault::MissingWord(Word::Y))?;
        let spacing = self
            .cellsize
            .ok_or(HeightFault::MissingWord(Word::Cellsize))?;
        if u64::from(cols) * u64::from(rows) > u64::from(MOST_PLACES) {
            return Err(HeightFault::TooMany);
        }
        let missing = self.nodata.unwrap_or(Class::Millimetres(MISSING));
        Ok(Layout {
            cols,
            rows,
            x,
            y,
            spacing,
            missing,
        })
    }
}

/// The class of a missing height.
fn read_nodata(token: &Token<'_>) -> Result<Class, HeightFault>
    ensures { result_seen class_seen result ≡ nodata_of (seen token.now) }
{
    class_of(token.bytes).ok_or(HeightFault::BadNumber(token.place))
}

/// Whether a token ends the header.
pub fn begins_height(bytes: &[u8]) -> bool
    ensures { result ≡ begins_height bytes.now }
{
    begins_number(bytes) || is_nan(bytes)
}

fn begins_number(bytes: &[u8]) -> bool
    ensures { result ≡ begins_number bytes.now }
{
    match bytes {
        [] => false,
        [first, ..] => first.is_ascii_digit() || matches!(*first, b'+' | b'-' | b'.'),
    }
}

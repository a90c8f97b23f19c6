ghost use Rattle.std.specs.Prelude.{◌≡◌, option_map};
ghost use Rattle.std.specs.Str.{str_eq_ignore_ascii_case};
ghost use Rattle.ldp_heights.specs.Header.{header_word};
ghost use Rattle.ldp_heights.specs.Seen.{name_seen};

/// A word of the header, with the form of a coordinate.
#[derive(Clone, Copy)]
pub enum HeaderWord {
    Ncols,
    Nrows,
    XllCorner,
    XllCenter,
    YllCorner,
    YllCenter,
    Cellsize,
    NodataValue,
}

/// The word that a token is, in any case.
#[tactic(auto, unfolding(crate::specs::Header::header_word))]
pub fn header_word(bytes: &[u8]) -> Option<HeaderWord>
    ensures { option_map name_seen result ≡ header_word bytes.now }
{
    if is_word(bytes, b"ncols") {
        Some(HeaderWord::Ncols)
    } else if is_word(bytes, b"nrows") {
        Some(HeaderWord::Nrows)
    } else if is_word(bytes, b"xllcorner") {
        Some(HeaderWord::XllCorner)
    } else if is_word(bytes, b"xllcenter") {
        Some(HeaderWord::XllCenter)
    } else if is_word(bytes, b"yllcorner") {
        Some(HeaderWord::YllCorner)
    } else if is_word(bytes, b"yllcenter") {
        Some(HeaderWord::YllCenter)
    } else if is_word(bytes, b"cellsize") {
        Some(HeaderWord::Cellsize)
    } else if is_word(bytes, b"nodata_value") {
        Some(HeaderWord::NodataValue)
    } else {
        None
    }
}

fn is_word(bytes: &[u8], word: &[u8]) -> bool
    ensures { result ≡ str_eq_ignore_ascii_case bytes.now word.now }
{
    bytes.eq_ignore_ascii_case(word)
}

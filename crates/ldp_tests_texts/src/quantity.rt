use crate::show::answer;
use anyhow::Result;
use ldp_quantity::{read_between, read_latitude, read_longitude, read_scale};

/// A longitude, a latitude, a scale factor, or a number from -2.5 to 10 in tenths.
pub fn read(rt: &impl Print, word: &str, text: &[u8]) -> Result<()> {
    let number = match word {
        "longitude" => read_longitude(text),
        "latitude" => read_latitude(text),
        "scale" => read_scale(text),
        _ => read_between(text, 1, -25, 100),
    };
    answer(rt, &number)
}

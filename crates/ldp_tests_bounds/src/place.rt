use anyhow::{Context, Result, bail};

/// All designs of a family, halved so many times, where the low or the high part is kept.
#[derive(Clone, Copy)]
pub struct Place {
    pub family: u16,
    pub high: bool,
    pub halvings: u32,
}

impl Place {
    /// The place that these words name.
    pub fn of(words: &str) -> Result<Place> {
        let (family, rest) = words.split_once(' ').context("a family")?;
        let (side, halvings) = rest.split_once(' ').context("a side")?;
        Ok(Place {
            family: family.parse()?,
            high: is_high(side)?,
            halvings: halvings.parse()?,
        })
    }
}

fn is_high(side: &str) -> Result<bool> {
    match side {
        "low" => Ok(false),
        "high" => Ok(true),
        _ => bail!("no side: {side}"),
    }
}

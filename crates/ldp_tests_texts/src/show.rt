use anyhow::Result;
use std::fmt::Debug;

/// Prints an answer.
pub fn answer<T: Debug>(rt: &impl Print, value: &T) -> Result<()> {
    println!(rt; "= {value:?}")?;
    Ok(())
}

/// Prints an answer with its name.
pub fn named<T: Debug>(rt: &impl Print, name: &str, value: &T) -> Result<()> {
    println!(rt; "= {name} {value:?}")?;
    Ok(())
}

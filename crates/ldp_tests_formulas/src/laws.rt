use anyhow::{Result, bail};
use ldp_range::{Range, laws};

/// Calls laws, which do nothing.
pub fn answer(rt: &impl Print, call: &str) -> Result<()> {
    match call {
        "ranges" => laws_of_ranges(),
        "lambert2" => ldp_lambert2::laws::exact_on_the_first_parallel(),
        _ => bail!("no laws"),
    }
    print!(rt; " called")?;
    Ok(())
}

fn laws_of_ranges() {
    laws::inclusion();
    laws::sharpness();
    laws::isotony();
    laws::twin_inclusion();
    laws::twins();
    laws::following::<i128, Range>();
    laws::hulls();
    laws::absolute_values();
}

//! Repeats one operation, one run of a projection's joint list, or the bound of a box over 672
//! cells, for `bench/` to time. The first word says which, the second how often, and a third,
//! `ranges` or `slopes`, has a list run in ranges or in slopes; with no word each is repeated a
//! little. It prints a sum or a count, and no time.
#![tactic(auto)]

ghost use Rattle.std.specs.Prelude.{IfOk, IfSome};
ghost use Rattle.ldp_timing.specs.Fitting.{Fitting};

mod boxes;
mod operations;
mod runs;

use crate::boxes::bounds;
use crate::operations::{
    chained_products, chained_quotients, chained_roots, products, quotients, roots,
};
use crate::runs::{in_numbers, in_ranges, in_slopes};
use ldp_design::Kind;
use ldp_series::{Lists, Memory};
use std::alloc::Global;
use std::{env, io};

/// What can be repeated.
const KINDS: [&str; 11] = [
    "mul",
    "mul-chain",
    "div",
    "div-chain",
    "sqrt",
    "sqrt-chain",
    "tm",
    "lambert",
    "hotine",
    "tm-boxes",
    "lambert-boxes",
];

/// How often, where the words do not say.
const RUNS: u32 = 100;

/// What a list is run over.
#[derive(Clone, Copy)]
enum Carrier {
    Numbers,
    Ranges,
    Slopes,
}

/// What a word says that a list is run over.
fn carrier_of(word: &[u8]) -> Carrier {
    match word {
        b"ranges" => Carrier::Ranges,
        b"slopes" => Carrier::Slopes,
        _ => Carrier::Numbers,
    }
}

/// The sum of an operation's results, where the kind is an operation.
fn sum_of(kind: &[u8], runs: u32) -> Option<i128> {
    match kind {
        b"mul" => Some(products(runs)),
        b"mul-chain" => Some(chained_products(runs)),
        b"div" => Some(quotients(runs)),
        b"div-chain" => Some(chained_quotients(runs)),
        b"sqrt" => Some(roots(runs)),
        b"sqrt-chain" => Some(chained_roots(runs)),
        _ => None,
    }
}

/// The lists of a projection, where the kind is one.
fn lists_of(alloc: Global, kind: &[u8]) -> Result<Option<Lists>, Memory>
    ensures { IfOk result (λ found. IfSome found Fitting) }
{
    match kind {
        b"tm" => Ok(Some(ldp_tm::lists(alloc)?)),
        b"lambert" => Ok(Some(ldp_lambert::lists(alloc)?)),
        b"hotine" => Ok(Some(ldp_hotine::lists(alloc, false)?)),
        _ => Ok(None),
    }
}

/// The sum of an operation's results, how many runs of a joint list had a value, or the sum of the
/// bounds of boxes; 0 for another kind.
fn repeated(alloc: Global, kind: &[u8], runs: u32, carrier: Carrier) -> Result<i128, Memory> {
    if let Some(sum) = sum_of(kind, runs) {
        return Ok(sum);
    }
    let Some(lists) = lists_of(alloc, kind)? else {
        return bounds_of(alloc, kind, runs);
    };
    let defined = match carrier {
        Carrier::Numbers => in_numbers(alloc, &lists, runs)?,
        Carrier::Ranges => in_ranges(alloc, &lists, runs)?,
        Carrier::Slopes => in_slopes(alloc, &lists, runs)?,
    };
    Ok(i128::from(defined))
}

/// The sum of the bounds of boxes of a family, where the kind is one of boxes.
fn bounds_of(alloc: Global, kind: &[u8], runs: u32) -> Result<i128, Memory> {
    match kind {
        b"tm-boxes" => bounds(alloc, Kind::Tm, runs),
        b"lambert-boxes" => bounds(alloc, Kind::Lambert, runs),
        _ => Ok(0),
    }
}

fn main(rt: HostRuntime) -> io::Result<()> {
    let mut words = env::args(&rt)?;
    let kind = words.nth(1);
    let runs = words
        .next()
        .and_then(|word| word.parse::<u32>().ok())
        .unwrap_or(RUNS);
    let carrier = match words.next() {
        Some(word) => carrier_of(word.as_bytes()),
        None => Carrier::Numbers,
    };
    match kind {
        Some(kind) => {
            let sum = repeated(rt.alloc(), kind.as_bytes(), runs, carrier)?;
            println!(rt; "{kind}: {runs} times, {sum}")?;
        }
        None => {
            for kind in KINDS {
                let sum = repeated(rt.alloc(), kind.as_bytes(), runs, carrier)?;
                println!(rt; "{kind}: {runs} times, {sum}")?;
            }
        }
    }
    Ok(())
}

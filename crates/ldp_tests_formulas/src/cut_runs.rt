ghost use Rattle.std.specs.Prelude.{◌≡◌, IfOk};
ghost use Rattle.ldp_series.specs.Shape.{HasShape};

use crate::say::say_some;
use crate::words::numbers;
use anyhow::Result;
use ldp_num::{Fix, Num, ONE};
use ldp_series::{Build, CutRuns, List, Memory};
use std::alloc::Global;

/// The square root of x squared and y, by runs in which x stays. x is 3 at the first two y, then 4.
pub fn cut_runs(rt: &(impl Print + AllocGlobal), rest: &str) -> Result<()> {
    let [first, second, third, fourth] = numbers::<4>(rest)?;
    let list = hypotenuse(rt.alloc())?;
    let mut runs = CutRuns::new(rt.alloc(), &list, 1)?;
    let (three, four) = (Fix::constant(3 * ONE), Fix::constant(4 * ONE));
    say_root(rt, &mut runs, &[three, first])?;
    say_root(rt, &mut runs, &[three, second])?;
    say_root(rt, &mut runs, &[four, third])?;
    say_root(rt, &mut runs, &[four, fourth])
}

fn say_root(rt: &impl Print, runs: &mut CutRuns<Fix>, inputs: &[Fix; 2]) -> Result<()>
    requires { HasShape 2 1 runs.old }
    ensures { runs.new ≡ runs.old }
{
    let mut results = [Fix::constant(0)];
    let defined = runs.run_into(inputs, &mut results);
    say_some(rt, if defined { Some(results[0].n) } else { None })
}

fn hypotenuse(alloc: Global) -> Result<List, Memory>
    ensures { IfOk result (HasShape 2 1) }
{
    let mut build = Build::new(alloc, 2)?;
    let square = build.sq(0)?;
    let sum = build.add(square, 1)?;
    let root = build.sqrt(sum)?;
    build.finish(&[root])
}

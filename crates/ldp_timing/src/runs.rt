ghost use Rattle.std.specs.Prelude.{◌≡◌, ◌≤◌, length};
ghost use Rattle.ldp_num.specs.Steps.{most_steps};
ghost use Rattle.ldp_timing.specs.Fitting.{Fitting};

use ldp_centred::Slope;
use ldp_num::{Bench, Fix, MOST_INPUTS, Num};
use ldp_range::{Range, sharp};
use ldp_series::{List, Lists, Memory};
use std::alloc::Global;

/// A cell at latitude 40°, longitude -105° and 1500 m, as the inputs of a cell list.
const CELL: [i128; 3] = [698_131_700_797_731, -1_832_595_714_594_046, 235_178_391_433];

/// A design at latitude 39.5°, longitude -104.5° and azimuth 45°, with the scale factor 1.0001, as
/// the inputs of a design list.
const DESIGN: [i128; 4] = [
    689_405_054_537_760,
    -1_823_869_068_334_075,
    785_398_163_397_448,
    1_000_100_000_000_000,
];

/// How many of so many runs of a projection's joint list have a value, over numbers. The cell list
/// and the design list are run once.
pub fn in_numbers(alloc: Global, lists: &Lists, runs: u32) -> Result<u32, Memory>
    requires { Fitting lists.now }
{
    let mut bench: Bench<Fix> = Bench::with_room(alloc, most_steps_of(lists))?;
    let cell = [
        Fix::constant(CELL[0]),
        Fix::constant(CELL[1]),
        Fix::constant(CELL[2]),
    ];
    let design = [
        Fix::constant(DESIGN[0]),
        Fix::constant(DESIGN[1]),
        Fix::constant(DESIGN[2]),
        Fix::constant(DESIGN[3]),
    ];
    let mut buffer = [Fix::constant(0); MOST_INPUTS];
    let inputs = &mut buffer[..lists.joint.inputs() as usize];
    if !put_results(&mut bench, lists, &cell, &design, inputs) {
        return Ok(0);
    }
    Ok(defined_runs(&mut bench, &lists.joint, inputs, runs))
}

/// The same in ranges of one number each.
pub fn in_ranges(alloc: Global, lists: &Lists, runs: u32) -> Result<u32, Memory>
    requires { Fitting lists.now }
{
    let mut bench: Bench<Range> = Bench::with_room(alloc, most_steps_of(lists))?;
    let cell = [sharp(CELL[0]), sharp(CELL[1]), sharp(CELL[2])];
    let design = [
        sharp(DESIGN[0]),
        sharp(DESIGN[1]),
        sharp(DESIGN[2]),
        sharp(DESIGN[3]),
    ];
    let mut buffer = [sharp(0); MOST_INPUTS];
    let inputs = &mut buffer[..lists.joint.inputs() as usize];
    if !put_results(&mut bench, lists, &cell, &design, inputs) {
        return Ok(0);
    }
    Ok(defined_runs(&mut bench, &lists.joint, inputs, runs))
}

/// The same in slopes, over a box of one design.
pub fn in_slopes(alloc: Global, lists: &Lists, runs: u32) -> Result<u32, Memory>
    requires { Fitting lists.now }
{
    let mut bench: Bench<Slope> = Bench::with_room(alloc, most_steps_of(lists))?;
    let cell = [
        Slope::constant(CELL[0]),
        Slope::constant(CELL[1]),
        Slope::constant(CELL[2]),
    ];
    let design = [
        Slope::input(sharp(DESIGN[0]), 0),
        Slope::input(sharp(DESIGN[1]), 1),
        Slope::input(sharp(DESIGN[2]), 2),
        Slope::input(sharp(DESIGN[3]), 3),
    ];
    let mut buffer = [Slope::constant(0); MOST_INPUTS];
    let inputs = &mut buffer[..lists.joint.inputs() as usize];
    if !put_results(&mut bench, lists, &cell, &design, inputs) {
        return Ok(0);
    }
    Ok(defined_runs(&mut bench, &lists.joint, inputs, runs))
}

// How many steps the longest of the lists has.
fn most_steps_of(lists: &Lists) -> usize
    ensures small { result ≤ most_steps }
    ensures cell { length lists.now.cell.steps ≤ result }
    ensures design { length lists.now.design.steps ≤ result }
    ensures joint { length lists.now.joint.steps ≤ result }
{
    let cell = lists.cell.steps().len();
    let design = lists.design.steps().len();
    let joint = lists.joint.steps().len();
    cell.max(design).max(joint)
}

// Writes the results of the design list and those of the cell list, where both have a value.
fn put_results<N: Num>(
    bench: &mut Bench<N>,
    lists: &Lists,
    cell: &[N],
    design: &[N],
    results: &mut [N],
) -> bool
    requires lists { Fitting lists.now }
    requires cell { length cell.now ≡ 3 }
    requires design { length design.now ≡ 4 }
    requires results { length results.old ≡ lists.now.joint.inputs }
    requires cell_room { length lists.now.cell.steps ≤ bench.old.room }
    requires design_room { length lists.now.design.steps ≤ bench.old.room }
    ensures { bench.new.room ≡ bench.old.room }
{
    let (of_design, of_cell) = results.split_at_mut(lists.design.outs().len());
    lists.design.run_into(bench, design, of_design) && lists.cell.run_into(bench, cell, of_cell)
}

// How many of so many runs of a list have a value.
fn defined_runs<N: Num>(bench: &mut Bench<N>, list: &List, inputs: &[N], runs: u32) -> u32
    requires inputs { length inputs.now ≡ list.now.inputs }
    requires results { 1 ≤ length list.now.outs }
    requires room { length list.now.steps ≤ bench.old.room }
    ensures { result ≤ runs }
{
    let mut defined = 0;
    for round in 0..runs {
        if list.run_first(bench, inputs).is_some() {
            defined += 1;
        }
    }
    defined
}

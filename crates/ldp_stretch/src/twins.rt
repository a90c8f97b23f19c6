//! Twins of the results of the design list and of a hull, as inputs of the joint list.
ghost use Rattle.std.specs.Prelude.{◌≡◌, length};
ghost use Rattle.ldp_range.specs.Range.{twice};
ghost use Rattle.ldp_range.specs.Twin.{IsHeld, ends_twin};
ghost use Rattle.ldp_stretch.specs.Twins.{hull_twins, range_twins, number_twins, StandForRanges};

use ldp_num::Fix;
use ldp_range::{Range, Twin, sharp};

/// Writes the twin of each range, of which there are as many.
pub(crate) fn put_ranges(ranges: &[Range], twins: &mut [Twin])
    requires { length twins.old ≡ length ranges.now }
    ensures value { twins.new ≡ range_twins ranges.now }
    ensures stand { StandForRanges ranges.now twins.new }
{
    for (i, range) in ranges.iter().enumerate() {
        twins[i] = of_range(*range);
    }
}

/// Writes the twin of each number, of which there are as many.
pub(crate) fn put_numbers(numbers: &[Fix], twins: &mut [Twin])
    requires { length twins.old ≡ length numbers.now }
    ensures { twins.new ≡ number_twins numbers.now }
{
    for (i, number) in numbers.iter().enumerate() {
        twins[i] = of_number(*number);
    }
}

/// Writes a hull as twins, of which there are as many.
pub(crate) fn put_hull(hull: &[Range], twins: &mut [Twin])
    requires { length twins.old ≡ length hull.now }
    ensures { twins.new ≡ hull_twins hull.now }
{
    for (i, range) in hull.iter().enumerate() {
        twins[i] = Twin::new(*range, *range);
    }
}

fn of_range(range: Range) -> Twin
    ensures value { result ≡ ends_twin range }
    ensures held { IsHeld range result }
{
    // Called for its clause: the ends of a range are ordered.
    let _low = range.lo();
    Twin::of_range(range)
}

fn of_number(number: Fix) -> Twin
    ensures { result ≡ ends_twin (twice number.n) }
{
    Twin::of_range(sharp(number.n))
}

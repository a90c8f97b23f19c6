ghost use Rattle.std.specs.Prelude.{◌≡◌, ℕ, ◌+◌, ◌%◌, ◌<◌, ◌≤◌, ◌==◌, ◌||◌, false, length};
ghost use Rattle.std.specs.Prelude.{slice_index, slice_index_or};
ghost use Rattle.std.specs.List.Sorted.{IsNonDecreasing};
ghost use Rattle.ldp_cells.specs.Rows.{crossings_beyond};

/// Marks each column with an odd number of crossings beyond it, given in their order from the west.
pub fn sweep(crossings: &[u32], marks: &mut [bool])
    requires { IsNonDecreasing crossings.now }
    ensures { (column : ℕ) → column < length marks.old
        → slice_index_or marks.new column false
        ≡ (slice_index_or marks.old column false
        || (crossings_beyond column crossings.now % 2 == 1)) }
{
    let mut passed = 0;
    for column in 0..marks.len() {
        passed = passed_at(crossings, passed, column);
        if (crossings.len() - passed) % 2 == 1 {
            marks[column] = true;
        }
    }
}

/// The number of crossings that are not beyond a column, where so many are known.
fn passed_at(crossings: &[u32], known: usize, column: usize) -> usize
    requires known { known ≤ length crossings.now }
    requires before { (k : ℕ) → k < known → slice_index crossings.now k ≤ column }
    ensures few { result ≤ length crossings.now }
    ensures before { (k : ℕ) → k < result → slice_index crossings.now k ≤ column }
    ensures behind { result < length crossings.now → column < slice_index crossings.now result }
{
    let mut passed = known;
    while passed < crossings.len() && crossings[passed] as usize <= column {
        passed += 1;
    }
    passed
}

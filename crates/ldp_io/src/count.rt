// Counts that stand still at their type's end, and the numbers of the calls that are to fail.
ghost use Rattle.std.specs.Prelude.{◌≡◌, ◌<◌};
ghost use Rattle.ldp_io.specs.Count.{raised as one_more, raised_at, AreCounts};
ghost use Rattle.ldp_io.specs.Count.{is_listed as listed_call};

pub(crate) fn raised(count: u64) -> u64
    ensures { result ≡ one_more count }
{
    count.saturating_add(1)
}

pub(crate) fn raise_at(faults: &mut [u64], place: u8)
    requires place { place < 4 }
    requires counts { AreCounts faults.old }
    ensures raised { faults.new ≡ raised_at place faults.old }
    ensures counts { AreCounts faults.new }
{
    let place = place as usize;
    faults[place] = raised(faults[place]);
}

pub(crate) fn is_listed(listed: &[u64], call: u64) -> bool
    ensures { result ≡ listed_call listed.now call }
{
    listed.iter().any(|one| *one == call)
}

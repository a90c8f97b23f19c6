ghost use Rattle.std.specs.Prelude.{◌≡◌, ◌≤◌, Some, None, length, map, option_map, if◌then◌else◌};
ghost use Rattle.std.specs.Bool.{OnFalse};
ghost use Rattle.ldp_num.specs.Written.{written};
ghost use Rattle.ldp_num.specs.StepList.{at_places, value_in, first_result};

use crate::list::List;
use ldp_num::{Bench, Num};

impl List {
    /// Runs the list on a bench and writes its results: true exactly where it has a value over
    /// these inputs.
    pub fn run_into<N: Num>(&self, bench: &mut Bench<N>, inputs: &[N], results: &mut [N]) -> bool
        requires inputs { length inputs.now ≡ self.now.inputs }
        requires room { length self.now.steps ≤ bench.old.room }
        requires results { length results.old ≡ length self.now.outs }
        ensures value { value_in (written N.CARRIER) self.now (map N.meaning inputs.now)
            ≡ (if result then Some (map N.meaning results.new) else None) }
        ensures kept { OnFalse result (results.new ≡ results.old) }
        ensures room { bench.new.room ≡ bench.old.room }
    {
        if !bench.run(self.steps(), inputs) {
            return false;
        }
        self.put_results(bench, results);
        true
    }

    /// Writes the list's results, where the last run on the bench was one of its steps.
    pub fn put_results<N: Num>(&self, bench: &Bench<N>, results: &mut [N])
        requires run { length bench.now.results ≡ length self.now.steps }
        requires results { length results.old ≡ length self.now.outs }
        ensures { at_places (map N.meaning bench.now.results) self.now.outs
            ≡ Some (map N.meaning results.new) }
    {
        for (i, place) in self.outs().iter().enumerate() {
            results[i] = bench.at(*place);
        }
    }

    /// Runs the list on a bench: its first result, where it has a value over these inputs.
    pub fn run_first<N: Num>(&self, bench: &mut Bench<N>, inputs: &[N]) -> Option<N>
        requires inputs { length inputs.now ≡ self.now.inputs }
        requires room { length self.now.steps ≤ bench.old.room }
        requires results { 1 ≤ length self.now.outs }
        ensures first { option_map N.meaning result
            ≡ first_result (value_in (written N.CARRIER) self.now (map N.meaning inputs.now)) }
        ensures room { bench.new.room ≡ bench.old.room }
    {
        if !bench.run(self.steps(), inputs) {
            return None;
        }
        let place = self.outs()[0];
        Some(bench.at(place))
    }
}

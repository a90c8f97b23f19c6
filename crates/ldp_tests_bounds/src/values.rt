ghost use Rattle.std.specs.Prelude.{◌≡◌, ◌≤◌, ◌<◌, ◌^◌, ◌-◌, length, Some, IfSome};
ghost use Rattle.ldp_sweep.specs.Cut.{IsCut, IsWithin};
ghost use Rattle.ldp_tests_bounds.specs.Values.{value_in};

use ldp_sweep::{Enclosure, Memory, Stretch, Sweep, nodes_of};
use std::alloc::Global;

/// The values at cells in a table, none where one is undefined.
#[derive(Drop)]
pub struct Values {
    values: Vec<Option<u128>>,
    nodes: Vec<Stretch>,
    ghost few: { length values.items < 2 ^ 32 },
    ghost cut: { IsCut (length values.items) nodes.items },
}

impl Values {
    ghost use Rattle.std.specs.Prelude.{◌≡◌, slice_get, Some};

    pub fn new(alloc: Global, values: Vec<Option<u128>>) -> Result<Values, Memory>
        requires some { 0 < length values.items }
        requires few { length values.items < 2 ^ 32 }
    {
        let nodes = nodes_of(alloc, values.len() as u32)?;
        Ok(Values { values, nodes })
    }

    fn node(&self, at: usize) -> Stretch
        requires { at < length self.now.nodes.items }
        ensures { slice_get self.now.nodes.items at ≡ Some result }
    {
        self.nodes[at]
    }
}

/// A value that is defined; none is greater than the greatest number.
fn defined(value: u128) -> Option<u128>
    ensures value { result ≡ Some value }
    ensures small { value ≤ 2 ^ 128 - 1 }
{
    Some(value)
}

/// The least and the greatest value at the cells from one to another, if all are defined.
fn span_of(values: &[Option<u128>], from: u32, to: u32) -> Option<Enclosure>
    requires ordered { from ≤ to }
    requires inside { to ≤ length values.now }
    ensures { IfSome result (IsWithin (value_in values.now) from to) }
{
    let mut span = Enclosure {
        low: u128::MAX,
        high: 0,
    };
    for cell in from..to {
        let Some(value) = values[cell as usize] else {
            return None;
        };
        span = Enclosure {
            low: span.low.min(value),
            high: span.high.max(value),
        };
    }
    Some(span)
}

impl Sweep for Values {
    ghost use Rattle.std.specs.Prelude.{length, ◌^◌, ◌-◌};
    ghost use Rattle.ldp_tests_bounds.specs.Values.{value_in};

    ghost cut = { λ table. record {
      cells = length table.values.items;
      value = value_in table.values.items;
      limit = 2 ^ 128 - 1;
      nodes = table.nodes.items;
    } };

    fn cells(&self) -> u32 {
        self.values.len() as u32
    }

    fn nodes(&self) -> &[Stretch] {
        &self.nodes
    }

    fn value(&mut self, cell: u32) -> Option<u128> {
        match self.values[cell as usize] {
            Some(value) => defined(value),
            None => None,
        }
    }

    fn span(&mut self, at: usize) -> Option<Enclosure> {
        let node = self.node(at);
        span_of(&self.values, node.from, node.to)
    }
}

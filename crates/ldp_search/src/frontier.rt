ghost use Rattle.std.specs.Prelude.{◌≡◌, [], ◌∷◌, All, OnOk, OnErr, IfSome, IfNone};
ghost use Rattle.std.specs.List.Sorted.{IsPermutation};
ghost use Rattle.ldp_problem.specs.Pairs.{AtMost};

use crate::bounded_box::BoundedBox;
use std::alloc::{AllocError, Global};
use std::cmp::Reverse;
use std::collections::BinaryHeap;
use std::marker::Model;

/// The boxes that may still be split, seen as a list of them in any order.
#[derive(Drop)]
pub struct Frontier {
    heap: BinaryHeap<Reverse<BoundedBox>>,
}

impl Model for Frontier {
    ghost use Rattle.std.specs.Prelude.{List, map};
    ghost use Rattle.std.specs.BinaryHeap.{heap_items, IsHeap};
    ghost use Rattle.ldp_search.specs.declared.bounded_box.BoundedBox.{BoundedBox};
    ghost use Rattle.ldp_search.specs.Bounded.{bounded_cmp};

    ghost Value = { List BoundedBox };

    ghost view = { λ frontier. map (λ reversed. reversed.0) (heap_items frontier.heap) };

    ghost invariant = { λ frontier.
        IsHeap (λ a b. bounded_cmp b.0 a.0) (heap_items frontier.heap) };
}

impl Frontier {
    /// No box.
    pub fn new(alloc: Global) -> Frontier
        ensures { result ≡ [] }
    {
        Frontier {
            heap: BinaryHeap::new(alloc),
        }
    }

    /// Puts a box among them.
    pub fn push(&mut self, b: BoundedBox) -> Result<(), AllocError>
        ensures ok { OnOk result (IsPermutation (b ∷ self.old) self.new) }
    {
        self.heap.push(Reverse(b))?;
        Ok(())
    }

    /// Takes a box of smallest bound.
    pub fn pop(&mut self) -> Option<BoundedBox>
        ensures some { IfSome result (λ b. IsPermutation self.old (b ∷ self.new)) }
        ensures least { IfSome result (λ b. All (λ other. AtMost b.low other.low) self.new) }
        ensures none { IfNone result (self.old ≡ []) }
    {
        let Reverse(b) = self.heap.pop()?;
        Some(b)
    }
}

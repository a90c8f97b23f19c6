ghost use Rattle.std.specs.Prelude.{◌≡◌, [], ◌∷◌, ◌++◌, ◌<◌, length, OnOk, OnErr, Some, slice_get};

use crate::node::Node;
use std::alloc::{AllocError, Global};
use std::marker::Model;

/// A forest, seen as the list of its entries: for each tree a `Tree` entry, then its nodes, each
/// split before its low part and that before its high part.
#[derive(Drop)]
pub struct Forest {
    nodes: Vec<Node>,
}

impl Model for Forest {
    ghost use Rattle.std.specs.Prelude.{List};
    ghost use Rattle.ldp_design.specs.declared.node.Node.{Node};

    ghost Value = { List Node };

    ghost view = { λ forest. forest.nodes.items };
}

impl Forest {
    /// A forest without an entry.
    pub fn new(alloc: Global) -> Forest
        ensures { result ≡ [] }
    {
        Forest {
            nodes: Vec::new(alloc),
        }
    }

    /// Puts an entry at the end.
    pub fn push(&mut self, n: Node) -> Result<(), AllocError>
        ensures ok { OnOk result (self.new ≡ self.old ++ n ∷ []) }
        ensures err { OnErr result (self.new ≡ self.old) }
    {
        self.nodes.push(n)?;
        Ok(())
    }

    /// The number of entries.
    pub fn len(&self) -> usize
        ensures { result ≡ length self.now }
    {
        self.nodes.len()
    }

    /// The entry with this index.
    pub fn get(&self, i: usize) -> Node
        requires { i < length self.now }
        ensures { slice_get self.now i ≡ Some result }
    {
        self.nodes[i]
    }
}

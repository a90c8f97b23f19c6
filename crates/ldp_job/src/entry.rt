ghost use Rattle.std.specs.Prelude.{◌≡◌, ◌≤◌, ◌<◌, IfSome};
ghost use Rattle.ldp_spelling.specs.Pieces.{words};
ghost use Rattle.ldp_num.specs.Number.{limit};
ghost use Rattle.ldp_job.specs.Entries.{last_number_in, leaf_in, unusable_in, tree_in, split_in};
ghost use Rattle.ldp_job.specs.Entries.{entry_in, may_stand, standing, is_over, is_end};
ghost use Rattle.ldp_job.specs.Entries.{pending_after, node_value};

use crate::objective::MOST;
use crate::word::{is, number};
use ldp_design::{MOST_NODES, Node, axis_named};
use ldp_spelling::Words;

fn last_number(words: &mut Words<'_>, low: u64, high: u64) -> Option<u64>
    requires { high ≤ limit }
    ensures value { result ≡ last_number_in low high words.old }
    ensures range { IfSome result (λ n. n ≤ high) }
{
    let n = number(words, low, high)?;
    if words.is_empty() { Some(n) } else { None }
}

fn split(words: &mut Words<'_>) -> Option<Node>
    ensures { result ≡ split_in words.old }
{
    let axis = axis_named(words.next()?)?;
    let cut = last_number(words, 0, MOST)? as u32;
    Some(Node::Split { axis, cut })
}

fn tree(words: &mut Words<'_>) -> Option<Node>
    ensures { result ≡ tree_in words.old }
{
    let family = last_number(words, 1, 65535)? as u16;
    Some(Node::Tree { family })
}

fn leaf(words: &mut Words<'_>) -> Option<Node>
    ensures { result ≡ leaf_in words.old }
{
    let cell = last_number(words, 0, MOST)? as u32;
    Some(Node::Leaf { cell })
}

fn unusable(words: &mut Words<'_>) -> Option<Node>
    ensures { result ≡ unusable_in words.old }
{
    let cell = last_number(words, 0, MOST)? as u32;
    Some(Node::Unusable { cell })
}

#[tactic(auto, unfolding(crate::specs::Entries::entry_in))]
fn entry(line: &[u8]) -> Option<Node>
    ensures { result ≡ entry_in (words line.now) }
{
    let mut words = Words::of_line(line);
    let first = words.next()?;
    if is(first, b"c") {
        leaf(&mut words)
    } else if is(first, b"s") {
        split(&mut words)
    } else if is(first, b"u") {
        unusable(&mut words)
    } else if is(first, b"tree") {
        tree(&mut words)
    } else {
        None
    }
}

fn may_stand(pending: u32, node: Node) -> bool
    ensures { result ≡ may_stand pending node }
{
    match node {
        Node::Tree { family: _ } => pending == 0,
        Node::Split { axis: _, cut: _ } | Node::Leaf { cell: _ } | Node::Unusable { cell: _ } => {
            pending != 0
        }
    }
}

/// The entry of a line, where so many parts of a tree are still to come.
#[tactic(auto, unfolding(crate::specs::Entries::standing))]
pub fn entry_at(line: &[u8], pending: u32) -> Option<Node>
    ensures { result ≡ standing pending (entry_in (words line.now)) }
{
    let node = entry(line)?;
    if may_stand(pending, node) {
        Some(node)
    } else {
        None
    }
}

/// Whether a line is that of a node, and there are already as many as may be.
pub fn is_over(nodes: u32, line: &[u8]) -> bool
    ensures { result ≡ is_over nodes line.now }
{
    matches!(line, [b's' | b'c' | b'u', b' ', ..]) && nodes >= MOST_NODES
}

/// Whether the forest ends with this line: no part of a tree is to come, and it is `end`.
pub fn is_end(pending: u32, line: &[u8]) -> bool
    ensures { result ≡ is_end pending line.now }
{
    pending == 0 && is(line, b"end")
}

/// How many parts are still to come after an entry.
pub fn pending_after(pending: u32, node: Node) -> u32
    requires { pending < 4_000_000 }
    ensures { result ≡ pending_after pending node }
{
    match node {
        Node::Tree { family: _ } => 1,
        Node::Split { axis: _, cut: _ } => pending + 1,
        Node::Leaf { cell: _ } | Node::Unusable { cell: _ } => pending.saturating_sub(1),
    }
}

/// How many nodes an entry is.
pub fn node_value(node: Node) -> u32
    ensures { result ≡ node_value node }
{
    match node {
        Node::Tree { family: _ } => 0,
        Node::Split { axis: _, cut: _ } | Node::Leaf { cell: _ } | Node::Unusable { cell: _ } => 1,
    }
}

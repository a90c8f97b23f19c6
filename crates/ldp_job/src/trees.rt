ghost use Rattle.std.specs.Prelude.{◌≡◌, ◌≢◌, ◌≤◌, true, Ok, Err, length, MatchResult, IfSome};
ghost use Rattle.std.specs.Prelude.{IfOk};
ghost use Rattle.ldp_spelling.specs.Pieces.{words};
ghost use Rattle.ldp_design.specs.Forests.{is_node};
ghost use Rattle.ldp_job.specs.Entries.{entry_in, may_stand, standing, is_node_line, forest_at};

use crate::entry::{entry_at, is_end, is_over, node_value, pending_after};
use crate::fault::JobFault;
use crate::line::next_line;
use ldp_design::{Forest, Node};
use ldp_spelling::Lines;
use std::alloc::Global;

/// The entry of a line, where so many parts of a tree are still to come.
fn node_at(line: &[u8], pending: u32) -> Option<Node>
    ensures value { result ≡ standing pending (entry_in (words line.now)) }
    ensures node { IfSome result (λ n. (may_stand pending n ≡ true)
        × (is_node n ≡ true → is_node_line line.now ≡ true)) }
{
    entry_at(line, pending)
}

/// The entries up to the line `end`, from the line with this number on.
pub fn forest_lines(alloc: Global, lines: &mut Lines<'_>, first: u32) -> Result<Forest, JobFault>
    requires { first ≤ 100 }
    ensures value { MatchResult result
        (λ forest. forest_at first 0 0 lines.old ≡ Ok (forest, lines.new))
        (λ fault. fault ≢ JobFault.Memory → forest_at first 0 0 lines.old ≡ Err fault) }
    ensures few { IfOk result (λ forest. length forest ≤ 10_000_000) }
{
    let mut forest = Forest::new(alloc);
    let mut number = first;
    let mut nodes = 0;
    let mut pending = 0;
    'entries: loop {
        let line = next_line(lines, number)?;
        if is_over(nodes, line) {
            return Err(JobFault::TooManyNodes(number));
        }
        if is_end(pending, line) {
            return Ok(forest);
        }
        let Some(node) = node_at(line, pending) else {
            return Err(JobFault::BadLine(number));
        };
        forest.push(node)?;
        nodes += node_value(node);
        pending = pending_after(pending, node);
        number += 1;
    }
}

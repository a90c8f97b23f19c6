//! What a certificate prints, beside what is so.
ghost use Rattle.std.specs.Prelude.{◌≡◌, ◌≤◌, ◌<◌, ◌==◌, not, Some, length, if◌then◌else◌};
ghost use Rattle.std.specs.Bool.{then_some};
ghost use Rattle.ldp_design.specs.Designs.{IsAdmitted};
ghost use Rattle.ldp_design.specs.Forests.{IsWellShaped, is_node, node_count};
ghost use Rattle.ldp_design.specs.Limits.{most_nodes};
ghost use Rattle.ldp_check.specs.Reports.{report_of};
ghost use Rattle.ldp_check.specs.Printed.{printed, printed_over, report_line, forest_line};
ghost use Rattle.ldp_check.specs.Verdicts.{other_over, other_worst, other_report};

use crate::number::is_equal;
use crate::reason::Reason;
use crate::report::{differing_line, report_of};
use ldp_cells::Cells;
use ldp_design::{Forest, Grids, Node};
use ldp_job::{Job, Names, Report, Share};
use ldp_problem::Pair;

/// The printed cost.
pub fn printed(job: &Job) -> Pair
    ensures { result ≡ printed job.now }
{
    Pair {
        over: printed_over(job.share),
        value: job.worst.unsigned_abs(),
    }
}

fn printed_over(share: Option<Share>) -> u32
    ensures { result ≡ printed_over share }
{
    match share {
        None => 0,
        Some(share) => share.over,
    }
}

/// The line of the first entry of the forest.
pub fn forest_line(names: &Option<Names>) -> u32
    ensures value { result ≡ forest_line names.now }
    ensures small { result ≤ 16 }
{
    match names {
        None => 13,
        Some(_) => 16,
    }
}

/// The first line of the report.
fn report_line(names: &Option<Names>) -> u32
    ensures value { result ≡ report_line names.now }
    ensures small { result ≤ 7 }
{
    match names {
        None => 4,
        Some(_) => 7,
    }
}

/// The reason, if the certificate prints another number of cells beyond its tolerance than this;
/// none if it has no tolerance.
pub fn over_differs(share: Option<Share>, actual: u32) -> Option<Reason>
    ensures { result ≡ other_over share actual }
{
    match share {
        None => None,
        Some(share) => other_over(share.over, actual),
    }
}

fn other_over(printed: u32, actual: u32) -> Option<Reason>
    ensures { result ≡ then_some (not (printed == actual)) (Reason.OverDiffers printed actual) }
{
    if printed == actual {
        None
    } else {
        Some(Reason::OverDiffers { printed, actual })
    }
}

/// The reason, if the certificate prints another worst distortion than this; both are in units of
/// 10^-15.
pub fn worst_differs(printed: i128, actual: i128) -> Option<Reason>
    ensures { result ≡ other_worst printed actual }
{
    if is_equal(&printed, &actual) {
        None
    } else {
        Some(Reason::WorstDiffers { printed, actual })
    }
}

/// The first line of the report that is not that of the design, whose worst distortion is at this
/// cell.
pub fn report_differs(
    grids: &Grids,
    cells: &Cells,
    job: &Job,
    worst: i128,
    cell: u32,
) -> Option<Reason>
    requires admitted { IsAdmitted grids.now.families job.now.design }
    requires cell { cell < length cells.now.cells }
    requires forest { IsWellShaped job.now.forest }
    ensures { result ≡ other_report job.now.names job.now.report
        (report_of grids.now.families cells.now job.now.design worst cell
        (node_count job.now.forest)) }
{
    let nodes = node_count(&job.forest);
    let actual = report_of(grids, cells, &job.design, worst, cell, nodes);
    other_report(&job.names, &job.report, &actual)
}

fn other_report(names: &Option<Names>, printed: &Report, actual: &Report) -> Option<Reason>
    ensures { result ≡ other_report names.now printed.now (Some actual.now) }
{
    match differing_line(printed, actual) {
        None => None,
        Some(line) => Some(Reason::ReportDiffers {
            line: report_line(names) + line,
        }),
    }
}

/// How many nodes a forest has.
fn node_count(forest: &Forest) -> u32
    requires { node_count forest.now ≤ most_nodes }
    ensures { result ≡ node_count forest.now }
{
    let mut nodes = 0;
    for i in 0..forest.len() {
        nodes += node_value(forest.get(i));
    }
    nodes
}

/// 1 for a node, and 0 for an entry where a tree begins.
fn node_value(entry: Node) -> u32
    ensures { result ≡ (if is_node entry then 1 else 0) }
{
    match entry {
        Node::Tree { .. } => 0,
        _ => 1,
    }
}

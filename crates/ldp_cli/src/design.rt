ghost use Rattle.std.specs.Prelude.{◌≡◌, false, IfErr, IfOk, IfSome, map, string_bytes};
ghost use Rattle.ldp_cli.specs.Files.{ServesFrom, Gives, StopsIn};
ghost use Rattle.ldp_cli.specs.Limits.{AreLimits};
ghost use Rattle.ldp_cli.specs.Design.{design_request, design_files, design_answer, IsCertified};

use crate::limits::{Limits, limits_of};
use crate::problem_files::{ProblemWords, take_problem};
use crate::stop::Stop;
use ldp_answer::{Answer, cells_over, design_over};
use ldp_io::Shelf;
use std::alloc::Global;
use std::marker::Model;

/// The words after `design`.
#[derive(Drop)]
pub struct DesignWords<'a> {
    problem: ProblemWords<'a>,
    limits: Limits,
}

impl<'a> Model for DesignWords<'a> {
    ghost use Rattle.ldp_cli.specs.Limits.{AreLimits};
    ghost use Rattle.ldp_cli.specs.Design.{DesignRequest};

    ghost Value = { DesignRequest };

    ghost view = { λ words. record { problem = words.problem; limits = words.limits } };

    ghost invariant = { λ words. AreLimits words.limits };
}

impl<'a> DesignWords<'a> {
    fn limits(&self) -> Limits
        ensures value { result ≡ self.now.limits }
        ensures range { AreLimits result }
    {
        self.limits
    }
}

/// The words after `design`, if they are in its form and each number is in its range.
pub fn design_words(words: &[String]) -> Option<DesignWords<'_>>
    ensures { result ≡ design_request (map string_bytes words.now) }
{
    match words {
        [zone, heights, grids, options @ ..] => Some(DesignWords {
            problem: ProblemWords {
                zone: zone.as_str(),
                heights: heights.as_str(),
                grids: grids.as_str(),
            },
            limits: limits_of(options)?,
        }),
        _ => None,
    }
}

/// The certificate of the best design.
pub fn design<H: Shelf>(
    alloc: Global,
    shelf: &mut H,
    words: &DesignWords<'_>,
) -> Result<Answer, Stop>
    requires { ServesFrom (H.serves shelf.old) 0 (design_files words.now) }
    ensures told { IfSome (H.files shelf.old) (λ files.
        Gives result (design_answer words.now files)) }
    ensures stops { IfErr result (λ stop. StopsIn (design_files words.now) stop
        (H.faults shelf.old) (H.faults shelf.new) (H.files shelf.old)) }
    ensures found { IfOk result (λ answer. answer.rejected ≡ false
        → IfSome (H.files shelf.old) (λ files. IsCertified words.now files)) }
{
    let problem = take_problem(alloc, shelf, &words.problem)?;
    let cells = cells_over(alloc, &problem.zone, &problem.heights)?;
    let limits = words.limits();
    Ok(design_over(
        alloc,
        &cells,
        &problem.grids,
        &problem.names,
        limits.budget,
        limits.tolerance,
    )?)
}

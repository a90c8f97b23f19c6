ghost use Rattle.std.specs.Prelude.{◌≡◌, IfErr, IfSome, map, string_bytes};
ghost use Rattle.ldp_cli.specs.Files.{ServesFrom, Gives, StopsIn};
ghost use Rattle.ldp_cli.specs.Eval.{EvalRequest, eval_request, eval_files, eval_answer};

use crate::inputs::take_heights;
use crate::stop::Stop;
use ldp_answer::{Answer, Central, eval_over};
use ldp_io::Shelf;
use std::alloc::Global;
use std::marker::Model;

/// The words after `eval`.
#[derive(Drop)]
pub struct EvalWords<'a> {
    heights: &'a str,
    design: Central,
}

impl<'a> Model for EvalWords<'a> {
    ghost Value = { EvalRequest };

    ghost view = { λ words. record { heights = words.heights.now; design = words.design } };
}

/// The words after `eval`, if they are in its form and each number is in its range.
pub fn eval_words(words: &[String]) -> Option<EvalWords<'_>>
    ensures { result ≡ eval_request (map string_bytes words.now) }
{
    match words {
        [heights, longitude, scale] => Some(EvalWords {
            heights: heights.as_str(),
            design: Central::of_words(longitude.as_bytes(), scale.as_bytes()).ok()?,
        }),
        _ => None,
    }
}

/// The worst of one transverse Mercator design over the cells of a grid.
pub fn eval<H: Shelf>(alloc: Global, shelf: &mut H, words: &EvalWords<'_>) -> Result<Answer, Stop>
    requires { ServesFrom (H.serves shelf.old) 0 (eval_files words.now) }
    ensures told { IfSome (H.files shelf.old) (λ files.
        Gives result (eval_answer words.now files)) }
    ensures stops { IfErr result (λ stop. StopsIn (eval_files words.now) stop
        (H.faults shelf.old) (H.faults shelf.new) (H.files shelf.old)) }
{
    let grid = take_heights(alloc, shelf, 0, words.heights)?;
    Ok(eval_over(alloc, &grid, &words.design)?)
}

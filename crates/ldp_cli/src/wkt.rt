ghost use Rattle.std.specs.Prelude.{◌≡◌, IfErr, IfSome, map, string_bytes};
ghost use Rattle.ldp_cli.specs.Files.{ServesFrom, Gives, StopsIn};
ghost use Rattle.ldp_cli.specs.Wkt.{WktRequest, wkt_request, wkt_files, wkt_answer};

use crate::inputs::{take_grids, take_job};
use crate::stop::Stop;
use ldp_answer::{Answer, wkt_over};
use ldp_io::Shelf;
use std::alloc::Global;
use std::marker::Model;

/// The words after `wkt`.
#[derive(Drop)]
pub struct WktWords<'a> {
    grids: &'a str,
    job: &'a str,
}

impl<'a> Model for WktWords<'a> {
    ghost Value = { WktRequest };

    ghost view = { λ words. record { grids = words.grids.now; job = words.job.now } };
}

/// The words after `wkt`, if they are in its form.
pub fn wkt_words(words: &[String]) -> Option<WktWords<'_>>
    ensures { result ≡ wkt_request (map string_bytes words.now) }
{
    match words {
        [grids, job] => Some(WktWords {
            grids: grids.as_str(),
            job: job.as_str(),
        }),
        _ => None,
    }
}

/// The line of the coordinate reference system of a job's design.
pub fn wkt<H: Shelf>(alloc: Global, shelf: &mut H, words: &WktWords<'_>) -> Result<Answer, Stop>
    requires { ServesFrom (H.serves shelf.old) 0 (wkt_files words.now) }
    ensures told { IfSome (H.files shelf.old) (λ files.
        Gives result (wkt_answer words.now files)) }
    ensures stops { IfErr result (λ stop. StopsIn (wkt_files words.now) stop
        (H.faults shelf.old) (H.faults shelf.new) (H.files shelf.old)) }
{
    let grids = take_grids(alloc, shelf, 0, words.grids)?;
    let job = take_job(alloc, shelf, 1, words.job)?;
    Ok(wkt_over(alloc, &grids.grids, &grids.hash, &job)?)
}

ghost use Rattle.std.specs.Prelude.{◌≡◌, List, [], OnOk, IfOk, IfErr, IfSome};
ghost use Rattle.ldp_io.specs.Count.{Later};
ghost use Rattle.ldp_job.specs.Values.{AreNames};
ghost use Rattle.ldp_cli.specs.Files.{Asked, ServesFrom, AreAccepted, Gives, StopsIn};
ghost use Rattle.ldp_cli.specs.ProblemFiles.{ProblemRequest, problem_files, problem_read};

use crate::inputs::{GridFile, HeightFile, ZoneFile, take_grids, take_height_file, take_zone};
use crate::stop::Stop;
use ldp_design::Grids;
use ldp_heights::Heights;
use ldp_io::Shelf;
use ldp_job::Names;
use ldp_zone::Zone;
use std::alloc::Global;
use std::marker::Model;

/// The names of the three files that state a problem.
#[derive(Drop)]
pub struct ProblemWords<'a> {
    pub zone: &'a str,
    pub heights: &'a str,
    pub grids: &'a str,
}

impl<'a> Model for ProblemWords<'a> {
    ghost Value = { ProblemRequest };

    ghost view = { λ words. record {
      zone = words.zone.now;
      heights = words.heights.now;
      grids = words.grids.now;
    } };
}

/// What is read of the three files, with their hashes.
#[derive(Drop)]
pub struct ProblemFiles {
    pub zone: Zone,
    pub heights: Heights,
    pub grids: Grids,
    pub names: Names,
}

/// Reads the three files, which have the places 0 to 2.
pub fn take_problem<H: Shelf>(
    alloc: Global,
    shelf: &mut H,
    words: &ProblemWords<'_>,
) -> Result<ProblemFiles, Stop>
    requires { ServesFrom (H.serves shelf.old) 0 (problem_files words.now []) }
    ensures told { IfSome (H.files shelf.old) (λ files.
        Gives result (problem_read words.now files)) }
    ensures accepted { OnOk result (IfSome (H.files shelf.old) (λ files.
        AreAccepted files (problem_files words.now []))) }
    ensures names { IfOk result (λ read. AreNames read.names) }
    ensures stops { IfErr result (λ stop. (more : List Asked) →
        StopsIn (problem_files words.now more) stop
        (H.faults shelf.old) (H.faults shelf.new) (H.files shelf.old)) }
    ensures files { H.files shelf.new ≡ H.files shelf.old }
    ensures serves { H.serves shelf.new ≡ H.serves shelf.old }
    ensures later { Later (H.faults shelf.old) (H.faults shelf.new) }
{
    let ZoneFile {
        zone,
        hash: zone_hash,
    } = take_zone(alloc, shelf, 0, words.zone)?;
    let HeightFile {
        heights,
        hash: height_hash,
    } = take_height_file(alloc, shelf, 1, words.heights)?;
    let GridFile {
        grids,
        hash: grid_hash,
    } = take_grids(alloc, shelf, 2, words.grids)?;
    let names = names_of(zone_hash, height_hash, grid_hash);
    Ok(ProblemFiles {
        zone,
        heights,
        grids,
        names,
    })
}

/// The names of the files with these hashes.
fn names_of(zone: [u8; 32], heights: [u8; 32], grids: [u8; 32]) -> Names
    ensures value { result ≡ record { zone = zone; heights = heights; grids = grids } }
    ensures names { AreNames result }
{
    Names {
        zone,
        heights,
        grids,
    }
}

ghost use Rattle.std.specs.Prelude.{◌≡◌, ◌<◌, IsTrue, OnOk, IfOk, IfErr, IfSome};
ghost use Rattle.ldp_io.specs.Count.{Later};
ghost use Rattle.ldp_job.specs.Values.{IsJob};
ghost use Rattle.ldp_cli.specs.Readings.{zone_read, heights_read, height_file_read, grids_read};
ghost use Rattle.ldp_cli.specs.Readings.{job_read, is_accepted};
ghost use Rattle.ldp_cli.specs.Files.{Gives, StopsAt};

use crate::hashed::{Digested, Hashed};
use crate::stop::Stop;
use crate::texts::{take_bytes, take_hashed, take_into};
use ldp_design::Grids;
use ldp_grids::{GridFault, read_grids};
use ldp_heights::{HeightFault, HeightReader, Heights};
use ldp_io::Shelf;
use ldp_job::{Job, JobFault, read_job};
use ldp_message::{FileRole, Refusal};
use ldp_zone::{Zone, ZoneFault, read_zone};
use std::alloc::Global;

/// A zone, with the SHA-256 hash of its file.
#[derive(Drop)]
pub struct ZoneFile {
    pub zone: Zone,
    pub hash: [u8; 32],
}

/// A grid of heights, with the SHA-256 hash of its file.
#[derive(Drop)]
pub struct HeightFile {
    pub heights: Heights,
    pub hash: [u8; 32],
}

/// Design grids, with the SHA-256 hash of their file.
#[derive(Drop)]
pub struct GridFile {
    pub grids: Grids,
    pub hash: [u8; 32],
}

/// Reads the file of a zone.
pub fn take_zone<H: Shelf>(
    alloc: Global,
    shelf: &mut H,
    place: u8,
    name: &str,
) -> Result<ZoneFile, Stop>
    requires place { place < 4 }
    requires served { IsTrue (H.serves shelf.old place name.now) }
    ensures told { IfSome (H.files shelf.old) (λ files.
        Gives result (zone_read (files name.now))) }
    ensures stops { IfErr result (λ stop.
        StopsAt place FileRole.Zone stop (H.faults shelf.old) (H.faults shelf.new)) }
    ensures files { H.files shelf.new ≡ H.files shelf.old }
    ensures serves { H.serves shelf.new ≡ H.serves shelf.old }
    ensures later { Later (H.faults shelf.old) (H.faults shelf.new) }
{
    let file = take_hashed(alloc, shelf, place, FileRole::Zone, name)?;
    match read_zone(alloc, &file.of) {
        Ok(zone) => Ok(ZoneFile {
            zone,
            hash: file.hash,
        }),
        Err(ZoneFault::Memory) => Err(Stop::Memory),
        Err(fault) => Err(Stop::Refused(Refusal::RefusedZone(fault))),
    }
}

/// Reads the file of heights, piece by piece.
pub fn take_heights<H: Shelf>(
    alloc: Global,
    shelf: &mut H,
    place: u8,
    name: &str,
) -> Result<Heights, Stop>
    requires place { place < 4 }
    requires served { IsTrue (H.serves shelf.old place name.now) }
    ensures told { IfSome (H.files shelf.old) (λ files.
        Gives result (heights_read (files name.now))) }
    ensures stops { IfErr result (λ stop.
        StopsAt place FileRole.Heights stop (H.faults shelf.old) (H.faults shelf.new)) }
    ensures files { H.files shelf.new ≡ H.files shelf.old }
    ensures serves { H.serves shelf.new ≡ H.serves shelf.old }
    ensures later { Later (H.faults shelf.old) (H.faults shelf.new) }
{
    let mut reader = HeightReader::new(alloc);
    take_into(shelf, place, FileRole::Heights, name, &mut reader)?;
    match reader.finish() {
        Ok(heights) => Ok(heights),
        Err(HeightFault::Memory) => Err(Stop::Memory),
        Err(fault) => Err(Stop::Refused(Refusal::RefusedHeights(fault))),
    }
}

/// Reads the file of heights, piece by piece, with its hash.
pub fn take_height_file<H: Shelf>(
    alloc: Global,
    shelf: &mut H,
    place: u8,
    name: &str,
) -> Result<HeightFile, Stop>
    requires place { place < 4 }
    requires served { IsTrue (H.serves shelf.old place name.now) }
    ensures told { IfSome (H.files shelf.old) (λ files.
        Gives result (height_file_read (files name.now))) }
    ensures accepted { OnOk result (IfSome (H.files shelf.old) (λ files.
        IsTrue (is_accepted FileRole.Heights (files name.now)))) }
    ensures stops { IfErr result (λ stop.
        StopsAt place FileRole.Heights stop (H.faults shelf.old) (H.faults shelf.new)) }
    ensures files { H.files shelf.new ≡ H.files shelf.old }
    ensures serves { H.serves shelf.new ≡ H.serves shelf.old }
    ensures later { Later (H.faults shelf.old) (H.faults shelf.new) }
{
    let mut reader = Hashed::over(HeightReader::new(alloc));
    take_into(shelf, place, FileRole::Heights, name, &mut reader)?;
    let Digested { of, hash } = reader.finish();
    match of.finish() {
        Ok(heights) => Ok(HeightFile { heights, hash }),
        Err(HeightFault::Memory) => Err(Stop::Memory),
        Err(fault) => Err(Stop::Refused(Refusal::RefusedHeights(fault))),
    }
}

/// Reads the file of design grids.
pub fn take_grids<H: Shelf>(
    alloc: Global,
    shelf: &mut H,
    place: u8,
    name: &str,
) -> Result<GridFile, Stop>
    requires place { place < 4 }
    requires served { IsTrue (H.serves shelf.old place name.now) }
    ensures told { IfSome (H.files shelf.old) (λ files.
        Gives result (grids_read (files name.now))) }
    ensures stops { IfErr result (λ stop.
        StopsAt place FileRole.Grids stop (H.faults shelf.old) (H.faults shelf.new)) }
    ensures files { H.files shelf.new ≡ H.files shelf.old }
    ensures serves { H.serves shelf.new ≡ H.serves shelf.old }
    ensures later { Later (H.faults shelf.old) (H.faults shelf.new) }
{
    let file = take_hashed(alloc, shelf, place, FileRole::Grids, name)?;
    match read_grids(alloc, &file.of) {
        Ok(grids) => Ok(GridFile {
            grids,
            hash: file.hash,
        }),
        Err(GridFault::Memory) => Err(Stop::Memory),
        Err(fault) => Err(Stop::Refused(Refusal::RefusedGrids(fault))),
    }
}

/// Reads the file of a job.
pub fn take_job<H: Shelf>(alloc: Global, shelf: &mut H, place: u8, name: &str) -> Result<Job, Stop>
    requires place { place < 4 }
    requires served { IsTrue (H.serves shelf.old place name.now) }
    ensures told { IfSome (H.files shelf.old) (λ files.
        Gives result (job_read (files name.now))) }
    ensures valid { IfOk result IsJob }
    ensures stops { IfErr result (λ stop.
        StopsAt place FileRole.Job stop (H.faults shelf.old) (H.faults shelf.new)) }
    ensures files { H.files shelf.new ≡ H.files shelf.old }
    ensures serves { H.serves shelf.new ≡ H.serves shelf.old }
    ensures later { Later (H.faults shelf.old) (H.faults shelf.new) }
{
    let text = take_bytes(alloc, shelf, place, FileRole::Job, name)?;
    match read_job(alloc, &text) {
        Ok(job) => Ok(job),
        Err(JobFault::Memory) => Err(Stop::Memory),
        Err(fault) => Err(Stop::Refused(Refusal::RefusedJob(fault))),
    }
}

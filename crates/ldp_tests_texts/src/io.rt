// What no clause says: the calls succeed where there is memory, and real files and streams are read
// and written.
ghost use Rattle.std.specs.Prelude.{◌<◌, ◌≤◌, IsTrue, length};

use crate::escape::answer_bytes;
use crate::show::{answer, named};
use anyhow::{Result, bail};
use ldp_io::{
    FileShelf, MemoryShelf, MemorySink, Next, NoFaultShelf, NoFaultSink, Opened, Shelf, Sink,
    StreamSink, Wrote,
};
use std::fs;
use std::rt::Files;

/// Carries out the case of this name.
pub fn case(rt: &(impl Files + Print + AllocGlobal), name: &str) -> Result<()> {
    match name {
        "memory shelf" => memory_shelf(rt),
        "shelf without faults" => no_fault_shelf(rt),
        "memory sink" => memory_sink(rt),
        "sink without faults" => no_fault_sink(rt),
        "real files" => real_files(rt),
        "real streams" => real_streams(rt),
        _ => bail!("no such case: {name}"),
    }
}

/// Begins a file at the third place and takes the first of its bytes.
fn begin_and_take<S: Shelf>(shelf: &mut S, name: &str, buf: &mut [u8]) -> (Opened, Next)
    requires served { IsTrue (S.serves shelf.old 2 name.now) }
    requires room { 1 ≤ length buf.old }
{
    let opened = shelf.begin(2, name);
    (opened, shelf.next(buf))
}

fn write_twice<S: Sink>(sink: &mut S, piece: &[u8]) -> (Wrote, Wrote)
    requires { 1 ≤ length piece.now }
{
    let first = sink.write(piece);
    (first, sink.write(piece))
}

/// A shelf in memory gives what was put last.
fn memory_shelf(rt: &(impl Print + AllocGlobal)) -> Result<()> {
    let mut shelf = MemoryShelf::new(rt.alloc(), 3);
    shelf.put("zone", b"an older zone")?;
    shelf.put("zone", b"zones")?;
    shelf.put("heights", b"")?;
    shelf.fail_at(7)?;
    let mut buf = [0; 4];
    for name in ["zone", "heights", "grid", "zone"] {
        named(rt, name, &begin_and_take(&mut shelf, name, &mut buf))?;
    }
    answer(rt, &shelf.next(&mut buf))?;
    answer(rt, &shelf.next(&mut buf))?;
    answer_bytes(rt, &buf)
}

/// A shelf without faults gives an empty file in the place of one that is not there.
fn no_fault_shelf(rt: &(impl Print + AllocGlobal)) -> Result<()> {
    let mut shelf = NoFaultShelf::new(rt.alloc(), 9);
    shelf.put("zone", b"zones")?;
    let mut buf = [0; 4];
    for name in ["zone", "grid"] {
        named(rt, name, &begin_and_take(&mut shelf, name, &mut buf))?;
    }
    Ok(())
}

/// A sink in memory keeps what it takes.
fn memory_sink(rt: &(impl Print + AllocGlobal)) -> Result<()> {
    let mut sink = MemorySink::new(rt.alloc(), 3);
    sink.fail_at(1)?;
    answer(rt, &write_twice(&mut sink, b"tables"))?;
    answer(rt, &write_twice(&mut sink, b"is"))?;
    answer_bytes(rt, sink.bytes())
}

fn no_fault_sink(rt: &(impl Print + AllocGlobal)) -> Result<()> {
    let mut sink = NoFaultSink::new(rt.alloc(), 9);
    answer(rt, &write_twice(&mut sink, b"is"))?;
    answer_bytes(rt, sink.bytes())
}

fn real_files(rt: &(impl Files + Print)) -> Result<()> {
    let mut shelf = FileShelf::new(rt);
    let mut buf = [1; 4];
    for name in [
        "/dev/null",
        "/dev/zero",
        "/dev",
        "/dev/there is no such file",
    ] {
        named(rt, name, &begin_and_take(&mut shelf, name, &mut buf))?;
    }
    answer_bytes(rt, &buf)
}

fn real_streams(rt: &(impl Files + Print)) -> Result<()> {
    for name in ["/dev/null", "/dev/full"] {
        let mut sink = StreamSink::new(fs::create(rt, name)?);
        named(rt, name, &write_twice(&mut sink, b"table"))?;
    }
    Ok(())
}

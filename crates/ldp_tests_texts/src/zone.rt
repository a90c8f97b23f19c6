use crate::show::{answer, named};
use anyhow::{Context, Result, bail, ensure};
use ldp_zone::{Edge, Point, Zone, read_zone};

/// The numbers of a place of a question lie from minus to plus this.
const FAR: i128 = 100_000_000_000_000_000_000;

/// How many rings a text has, or its first fault.
pub fn count(rt: &(impl Print + AllocGlobal), text: &[u8]) -> Result<()> {
    match read_zone(rt.alloc(), text) {
        Ok(zone) => named(rt, "rings", &zone.rings()),
        Err(fault) => answer(rt, &fault),
    }
}

/// Whether a point lies in the zone: `has X Y`.
pub fn has(rt: &(impl Print + AllocGlobal), rest: &str, text: &[u8]) -> Result<()> {
    let (x, y) = rest.split_once(' ').context("two numbers")?;
    let x = number(x)?;
    let y = number(y)?;
    match read_zone(rt.alloc(), text) {
        Ok(zone) => put_has(rt, &zone, x, y),
        Err(_) => bail!("no zone"),
    }
}

fn number(text: &str) -> Result<i128> {
    Ok(text.parse::<i128>()?)
}

fn put_has(rt: &impl Print, zone: &Zone, x: i128, y: i128) -> Result<()> {
    ensure!(-FAR <= x, "too far west");
    ensure!(x <= FAR, "too far east");
    ensure!(-FAR <= y, "too far south");
    ensure!(y <= FAR, "too far north");
    answer(rt, &zone.has(x, y))
}

/// The points of a ring: `ring NUMBER`.
pub fn ring(rt: &(impl Print + AllocGlobal), rest: &str, text: &[u8]) -> Result<()> {
    let ring = rest.parse::<u32>()?;
    match read_zone(rt.alloc(), text) {
        Ok(zone) => put_ring(rt, &zone, ring),
        Err(_) => bail!("no zone"),
    }
}

fn put_ring(rt: &impl Print, zone: &Zone, ring: u32) -> Result<()> {
    ensure!(ring < zone.rings(), "no such ring");
    for point in zone.ring(ring) {
        answer(rt, point)?;
    }
    Ok(())
}

/// An edge that rises two units over four.
const EDGE: Edge = Edge {
    start: Point { x: 0, y: 0 },
    end: Point { x: 4, y: 2 },
};

/// The edge, and points beside it, on it, and level with its end: whether it spans, crosses and
/// holds them.
pub fn edge(rt: &impl Print) -> Result<()> {
    let off = Point { x: 1, y: 1 };
    let on = Point { x: 2, y: 1 };
    let level = Point { x: -1, y: 2 };
    let products = (EDGE.edge_east(&off), EDGE.point_east(&off));
    named(rt, "off, products", &products)?;
    let tests = (EDGE.spans(&off), EDGE.crosses(&off), EDGE.holds(&off));
    named(rt, "off", &tests)?;
    let tests = (EDGE.spans(&on), EDGE.crosses(&on), EDGE.holds(&on));
    named(rt, "on", &tests)?;
    named(rt, "level", &(EDGE.spans(&level), EDGE.crosses(&level)))
}

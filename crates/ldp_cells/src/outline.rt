ghost use Rattle.std.specs.Prelude.{◌≡◌, ◌++◌, All, IfOk, OnOk};
ghost use Rattle.ldp_zone.specs.Inside.{edges, ring_edges, edges_from};
ghost use Rattle.ldp_zone.specs.Area.{IsNear, IsEdge, IsZone};

use ldp_zone::{Edge, Point, Zone};
use std::alloc::{AllocError, Global};

/// The edges of all rings of a zone.
pub fn edges_of(alloc: Global, zone: &Zone) -> Result<Vec<Edge>, AllocError>
    ensures keeps { IsZone zone.now }
    ensures value { IfOk result (λ v. v.items ≡ edges zone.now) }
    ensures range { IfOk result (λ v. All IsEdge v.items) }
{
    let mut edges = Vec::new(alloc);
    for i in 0..zone.rings() {
        push_ring(&mut edges, zone.ring(i))?;
    }
    Ok(edges)
}

fn push_ring(edges: &mut Vec<Edge>, ring: &[Point]) -> Result<(), AllocError>
    requires ring { All IsNear ring.now }
    requires range { All IsEdge edges.old.items }
    ensures value { OnOk result (edges.new.items ≡ edges.old.items ++ ring_edges ring.now) }
    ensures range { OnOk result (All IsEdge edges.new.items) }
{
    match ring.split_first() {
        None => Ok(()),
        Some((first, rest)) => push_from(edges, *first, rest),
    }
}

/// The edges from a point over those that follow it.
fn push_from(edges: &mut Vec<Edge>, first: Point, rest: &[Point]) -> Result<(), AllocError>
    requires first { IsNear first }
    requires rest { All IsNear rest.now }
    requires range { All IsEdge edges.old.items }
    ensures value { OnOk result (edges.new.items ≡ edges.old.items ++ edges_from first rest.now) }
    ensures range { OnOk result (All IsEdge edges.new.items) }
{
    edges.reserve(rest.len())?;
    let mut start = first;
    for point in rest {
        edges.push(Edge { start, end: *point })?;
        start = *point;
    }
    Ok(())
}

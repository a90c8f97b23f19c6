ghost use Rattle.std.specs.Prelude.{◌≡◌, ◌≢◌, ℕ, ◌<◌, ◌≤◌, All, true, false, length, IfOk, OnOk};
ghost use Rattle.std.specs.Prelude.{slice_index_or, nat_lt, nat_le, ◌&&◌, ◌||◌};
ghost use Rattle.ldp_zone.specs.Inside.{spans, between, on_edge, inside_of};
ghost use Rattle.ldp_zone.specs.Area.{IsEdge};
ghost use Rattle.ldp_cells.specs.Cells.{in_area};
ghost use Rattle.ldp_cells.specs.Rows.{column_centre, IsRow, AreMarks, TakesEdge, HoldsEdges};

use crate::region::area_has;
use crate::row::Row;
use crate::sweep::sweep;
use ldp_zone::Edge;
use std::alloc::{AllocError, Global};
use std::marker::Model;

/// A row of columns as it is filled: for each crossing of an edge the number of columns whose
/// centre lies strictly west of it, and for each column whether it is marked.
#[derive(Drop)]
pub struct Scanline {
    crossings: Vec<u32>,
    marks: Vec<bool>,
}

impl Model for Scanline {
    ghost use Rattle.ldp_cells.specs.Rows.{Filling};

    ghost Value = { Filling };

    ghost view = { λ line. record { crossings = line.crossings.items; marks = line.marks.items } };
}

impl Scanline {
    /// A line of so many columns.
    pub fn new(alloc: Global, cols: u32) -> Result<Self, AllocError>
        ensures { IfOk result (λ line. length line.marks ≡ cols) }
    {
        Ok(Scanline {
            crossings: Vec::new(alloc),
            marks: vec![in alloc; false; cols as usize]?,
        })
    }

    /// For each column from the west, whether its centre was marked.
    pub fn marks(&self) -> &[bool]
        ensures { result.now ≡ self.now.marks }
    {
        &self.marks
    }

    /// Marks the columns whose centre lies in the area.
    pub fn mark_area(&mut self, row: &Row)
        requires row { IsRow row.now }
        requires each { length self.old.marks ≡ row.now.cols }
        ensures { AreMarks in_area row.now self.new.marks }
    {
        for column in 0..row.cols {
            self.marks[column as usize] = area_has(&row.centre(column));
        }
    }

    /// Marks the columns whose centre lies inside of edges.
    pub fn mark_inside(&mut self, row: &Row, edges: &[Edge]) -> Result<(), AllocError>
        requires row { IsRow row.now }
        requires edges { All IsEdge edges.now }
        requires each { length self.old.marks ≡ row.now.cols }
        ensures marks { OnOk result (AreMarks (inside_of edges.now) row.now self.new.marks) }
    {
        self.take_edges(row, edges)?;
        self.crossings.sort_unstable();
        sweep(&self.crossings, &mut self.marks);
        Ok(())
    }

    /// Starts anew with these edges.
    fn take_edges(&mut self, row: &Row, edges: &[Edge]) -> Result<(), AllocError>
        requires row { IsRow row.now }
        requires edges { All IsEdge edges.now }
        requires each { length self.old.marks ≡ row.now.cols }
        ensures { OnOk result (HoldsEdges row.now edges.now self.new) }
    {
        self.crossings.clear();
        self.marks.fill(false);
        for edge in edges {
            self.take_edge(row, edge)?;
        }
        Ok(())
    }

    fn take_edge(&mut self, row: &Row, edge: &Edge) -> Result<(), AllocError>
        requires row { IsRow row.now }
        requires edge { IsEdge edge.now }
        requires each { length self.old.marks ≡ row.now.cols }
        ensures { OnOk result (TakesEdge row.now edge.now self.old self.new) }
    {
        if !edge.in_height(&row.centre(0)) {
            return Ok(());
        }
        if edge.start.y == edge.end.y {
            self.take_level(row, edge);
            return Ok(());
        }
        self.take_rising(row, edge)
    }

    /// Takes an edge along the row.
    fn take_level(&mut self, row: &Row, edge: &Edge)
        requires row { IsRow row.now }
        requires edge { IsEdge edge.now }
        requires each { length self.old.marks ≡ row.now.cols }
        requires start { edge.now.start.y ≡ row.now.y }
        requires end { edge.now.end.y ≡ row.now.y }
        ensures { TakesEdge row.now edge.now self.old self.new }
    {
        let west = edge.start.x.min(edge.end.x);
        let east = edge.start.x.max(edge.end.x);
        let step = u128::from(row.spacing);
        let first = row.columns_before(west - row.x, step);
        let end = row.columns_before(east - row.x + 1, step);
        self.mark_columns(first, end);
    }

    fn take_rising(&mut self, row: &Row, edge: &Edge) -> Result<(), AllocError>
        requires row { IsRow row.now }
        requires edge { IsEdge edge.now }
        requires each { length self.old.marks ≡ row.now.cols }
        requires rise { edge.now.start.y ≢ edge.now.end.y }
        ensures { OnOk result (TakesEdge row.now edge.now self.old self.new) }
    {
        let west = row.columns_west(edge);
        if edge.spans(&row.centre(0)) {
            self.crossings.push(west)?;
        }
        self.mark_held(row, edge, west);
        Ok(())
    }

    /// Marks a column where its centre lies on an edge that can hold the centre of no other.
    fn mark_held(&mut self, row: &Row, edge: &Edge, column: u32)
        requires row { IsRow row.now }
        requires edge { IsEdge edge.now }
        requires each { length self.old.marks ≡ row.now.cols }
        requires only { (other : ℕ) → other < row.now.cols
            → on_edge (column_centre row.now other) edge.now ≡ true → other ≡ column }
        ensures each { length self.new.marks ≡ length self.old.marks }
        ensures crossings { self.new.crossings ≡ self.old.crossings }
        ensures marks { (other : ℕ) → other < row.now.cols
            → slice_index_or self.new.marks other false
            ≡ (slice_index_or self.old.marks other false
            || on_edge (column_centre row.now other) edge.now) }
    {
        if column < row.cols && edge.holds(&row.centre(column)) {
            self.marks[column as usize] = true;
        }
    }

    /// Marks the columns from one on, below another.
    fn mark_columns(&mut self, first: u32, end: u32)
        requires { end ≤ length self.old.marks }
        ensures each { length self.new.marks ≡ length self.old.marks }
        ensures crossings { self.new.crossings ≡ self.old.crossings }
        ensures marks { (column : ℕ) → column < length self.old.marks
            → slice_index_or self.new.marks column false
            ≡ (slice_index_or self.old.marks column false
            || (nat_le first column && nat_lt column end)) }
    {
        for column in first..end {
            self.marks[column as usize] = true;
        }
    }
}

ghost use Rattle.std.specs.Prelude.{◌≡◌, [], ◌∷◌, ◌++◌, ◌<◌, ◌≤◌, ◌↔◌, length, IsTrue, OnOk, OnErr};
ghost use Rattle.std.specs.Prelude.{Some};
ghost use Rattle.ldp_design.specs.Families.{AreGrids, IsValid, family_of};
ghost use Rattle.ldp_design.specs.Designs.{IsAdmitted, IsDesignOf, has_design, is_admitted};
ghost use Rattle.ldp_design.specs.Grids.{plain_grids};
ghost use Rattle.ldp_design.specs.Limits.{most_families};
ghost use Rattle.ldp_design.specs.Boxes.{whole_box, whole_of, whole_span};
ghost use Rattle.ldp_design.specs.Laws.{IsWhole};

use crate::axis::Axis;
use crate::design::Design;
use crate::design_box::{DesignBox, Span};
use crate::family::Family;
use crate::rule::Rule;
use std::alloc::{AllocError, Global};
use std::marker::Model;

/// Families of designs, numbered from 1, and the rule of the bounds. Each family is valid, and
/// there are at most 16.
#[derive(Drop)]
pub struct Grids {
    families: Vec<Family>,
    rule: Rule,
}

impl Model for Grids {
    ghost use Rattle.ldp_design.specs.Families.{AreGrids};
    ghost use Rattle.ldp_design.specs.Grids.{DesignGrids};

    ghost Value = { DesignGrids };

    ghost view = { λ grids. record { families = grids.families.items; rule = grids.rule } };

    ghost invariant = { λ grids. AreGrids grids.families.items };
}

impl Grids {
    /// No family, and the plain rule.
    pub fn new(alloc: Global) -> Grids
        ensures { result ≡ plain_grids [] }
    {
        Grids {
            families: Vec::new(alloc),
            rule: Rule::Plain,
        }
    }

    /// Puts a family at the end.
    pub fn push(&mut self, f: Family) -> Result<(), AllocError>
        requires valid { IsValid f }
        requires room { length self.old.families < most_families }
        ensures ok { OnOk result (self.new
            ≡ record self.old { families = self.old.families ++ f ∷ [] }) }
        ensures err { OnErr result (self.new ≡ self.old) }
    {
        self.families.push(f)?;
        Ok(())
    }

    /// The number of families.
    pub fn families(&self) -> u16
        ensures value { result ≡ length self.now.families }
        ensures grids { AreGrids self.now.families }
    {
        self.families.len() as u16
    }

    /// The family with this number, from 1.
    pub fn family(&self, f: u16) -> &Family
        requires some { 1 ≤ f }
        requires known { f ≤ length self.now.families }
        ensures value { family_of self.now.families f ≡ Some result.now }
        ensures valid { IsValid result.now }
    {
        &self.families[f as usize - 1]
    }

    /// The rule of the bounds.
    pub fn rule(&self) -> Rule
        ensures { result ≡ self.now.rule }
    {
        self.rule
    }

    /// Takes another rule.
    pub fn set_rule(&mut self, rule: Rule)
        ensures { self.new ≡ record self.old { rule = rule } }
    {
        self.rule = rule;
    }
}

/// Whether a design is one of the designs of its family.
pub fn admits(grids: &Grids, d: &Design) -> bool
    ensures value { result ≡ is_admitted grids.now.families d.now }
    ensures admitted { IsTrue result ↔ IsAdmitted grids.now.families d.now }
{
    if d.family == 0 {
        return false;
    }
    if d.family > grids.families() {
        return false;
    }
    family_admits(grids.family(d.family), d)
}

fn family_admits(family: &Family, d: &Design) -> bool
    ensures value { result ≡ has_design family.now d.now }
    ensures design { IsTrue result ↔ IsDesignOf family.now d.now }
{
    d.lat < family.lat.count
        && d.lon < family.lon.count
        && d.azimuth < family.azimuth.count
        && d.scale < family.scale.count
}

/// The box of all designs of a family.
pub fn whole(grids: &Grids, f: u16) -> DesignBox
    requires some { 1 ≤ f }
    requires known { f ≤ length grids.now.families }
    ensures value { whole_of grids.now.families f ≡ Some result }
    ensures whole { IsWhole grids.now.families f result }
{
    let family = grids.family(f);
    DesignBox {
        family: f,
        lat: whole_span(&family.lat),
        lon: whole_span(&family.lon),
        azimuth: whole_span(&family.azimuth),
        scale: whole_span(&family.scale),
    }
}

fn whole_span(axis: &Axis) -> Span
    requires { 1 ≤ axis.now.count }
    ensures { result ≡ whole_span axis.now.count }
{
    Span {
        lo: 0,
        hi: axis.count - 1,
    }
}

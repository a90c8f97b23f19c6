ghost use Rattle.std.specs.Prelude.{IfOk};
ghost use Rattle.ldp_distortion.specs.Prepared.{FitTogether};

use anyhow::{Result, bail};
use ldp_series::{Lists, Memory};
use std::alloc::Global;

#[derive(Clone, Copy)]
pub enum Kind {
    TransverseMercator,
    Lambert,
    LambertTwo,
    Hotine,
    HotineSouth,
}

pub fn kind_of(name: &str) -> Result<Kind> {
    match name {
        "tm" => Ok(Kind::TransverseMercator),
        "lambert" => Ok(Kind::Lambert),
        "lambert2" => Ok(Kind::LambertTwo),
        "hotine" => Ok(Kind::Hotine),
        "hotine_south" => Ok(Kind::HotineSouth),
        _ => bail!("no projection"),
    }
}

pub fn lists_of(alloc: Global, kind: Kind) -> Result<Lists, Memory>
    ensures { IfOk result FitTogether }
{
    match kind {
        Kind::TransverseMercator => ldp_tm::lists(alloc),
        Kind::Lambert => ldp_lambert::lists(alloc),
        Kind::LambertTwo => ldp_lambert2::lists(alloc),
        Kind::Hotine => ldp_hotine::lists(alloc, false),
        Kind::HotineSouth => ldp_hotine::lists(alloc, true),
    }
}

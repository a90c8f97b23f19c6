ghost use Rattle.std.specs.Prelude.{◌≡◌, ◌*◌, ◌≤◌, length, All, IsTrue, IsOk, OnOk, IfOk, IfErr};
ghost use Rattle.std.specs.Prelude.{◌++◌, ◌∷◌, [], Option, vec_capacity};
ghost use Rattle.ldp_tokens.specs.Seen.{seen};
ghost use Rattle.ldp_heights.specs.Grid.{IsHeight};
ghost use Rattle.ldp_heights.specs.Ranges.{IsLayout};
ghost use Rattle.ldp_heights.specs.Kept.{Keeps};
ghost use Rattle.ldp_heights.specs.Seen.{layout_seen, stage_seen, result_seen};
ghost use Rattle.ldp_heights.specs.Stages.{at_start, at_height, is_started, with_height, taken_at};
ghost use Rattle.ldp_heights.specs.Stages.{and_header_left, and_taken, and_token, and_end, whole};

use crate::fault::HeightFault;
use crate::grid::Heights;
use crate::header::{Header, begins_height};
use crate::height::read_height;
use crate::layout::Layout;
use crate::open_token::OpenToken;
use crate::stage::Stage;
use ldp_tokens::Token;
use std::alloc::{AllocError, Global};
use std::marker::Model;

/// What the tokens of a text were read to so far, or their first fault.
#[derive(Drop)]
pub struct Progress {
    stage: Stage,
    heights: Vec<Option<i32>>,
    fault: Option<HeightFault>,
}

impl Model for Progress {
    ghost use Rattle.std.specs.Prelude.{vec_capacity};
    ghost use Rattle.ldp_heights.specs.Kept.{Keeps};
    ghost use Rattle.ldp_heights.specs.Seen.{stage_seen, sofar_seen};
    ghost use Rattle.ldp_heights.specs.Stages.{SoFar};

    ghost Value = { SoFar };

    ghost view = { λ progress.
        sofar_seen progress.fault (stage_seen progress.stage progress.heights.items) };

    ghost invariant = { λ progress.
        Keeps progress.stage progress.heights.items (vec_capacity progress.heights) };
}

impl Progress {
    /// Before the first token.
    pub fn start(alloc: Global) -> Self
        ensures { result ≡ at_start }
    {
        Progress {
            stage: Stage::Word(Header::empty()),
            heights: Vec::new(alloc),
            fault: None,
        }
    }

    /// Whether the header has ended or a fault was met.
    pub fn is_started(&self) -> bool
        ensures { result ≡ is_started self.now }
    {
        self.fault.is_some() || matches!(self.stage, Stage::Height(_))
    }

    /// Takes a whole token.
    pub fn take(&mut self, place: usize, known: &OpenToken) -> Result<(), AllocError>
        ensures taken { OnOk result (self.new ≡ and_token self.old place known.now) }
        ensures started { IsTrue (is_started self.old) → IsOk result }
        ensures stays { OnOk result (IsTrue (is_started self.old) → IsTrue (is_started self.new)) }
    {
        self.end_header(&known.token(place))?;
        self.read(place, known);
        Ok(())
    }

    /// Ends the header where the next token begins a height, and takes the room for all heights.
    #[tactic(auto, unfolding(crate::specs::Stages::header_left))]
    fn end_header(&mut self, token: &Token<'_>) -> Result<(), AllocError>
        ensures taken { OnOk result (self.new ≡ and_header_left self.old (seen token.now)) }
        ensures started { IsTrue (is_started self.old) → IsOk result }
        ensures stays { OnOk result (IsTrue (is_started self.old) → IsTrue (is_started self.new)) }
    {
        if self.fault.is_some() {
            return Ok(());
        }
        let Stage::Word(met) = self.stage else {
            return Ok(());
        };
        if !begins_height(token.bytes) {
            return Ok(());
        }
        match met.layout() {
            Err(fault) => self.fault = Some(fault),
            Ok(layout) => {
                self.heights.reserve_exact(layout.places())?;
                self.stage = Stage::Height(layout);
            }
        }
        Ok(())
    }

    /// Reads a token in its place.
    fn read(&mut self, place: usize, known: &OpenToken)
        ensures taken { self.new ≡ and_taken self.old place known.now }
        ensures stays { IsTrue (is_started self.old) → IsTrue (is_started self.new) }
    {
        if self.fault.is_some() {
            return;
        }
        match next_stage(&self.stage, &mut self.heights, place, known) {
            Ok(stage) => self.stage = stage,
            Err(fault) => self.fault = Some(fault),
        }
    }

    /// The answer where the text ends after so many bytes.
    #[tactic(auto, unfolding(crate::specs::Stages::ended))]
    pub fn finish(self, end: usize) -> Result<Heights, HeightFault>
        ensures { result ≡ and_end self end }
    {
        if let Some(fault) = self.fault {
            return Err(fault);
        }
        match self.stage {
            Stage::Word(met) => whole(&met.layout()?, self.heights),
            Stage::Value(_, _) => Err(HeightFault::BadNumber(end)),
            Stage::Height(layout) => whole(&layout, self.heights),
        }
    }
}

/// What comes after a token, which is a height where one comes next.
#[tactic(auto, unfolding(crate::specs::Stages::taken_at))]
fn next_stage(
    stage: &Stage,
    heights: &mut Vec<Option<i32>>,
    place: usize,
    known: &OpenToken,
) -> Result<Stage, HeightFault>
    requires { Keeps stage.now heights.old.items (vec_capacity heights.old) }
    ensures value { result_seen (λ next. stage_seen next heights.new.items) result
        ≡ taken_at place known.now (stage_seen stage.now heights.old.items) }
    ensures keeps { IfOk result (λ next.
        Keeps next heights.new.items (vec_capacity heights.new)) }
    ensures stays { IfOk result (λ next.
        IsTrue (is_started (Ok (stage_seen stage.now heights.old.items)))
        → IsTrue (is_started (Ok (stage_seen next heights.new.items)))) }
    ensures fault { IfErr result (λ _.
        Keeps stage.now heights.new.items (vec_capacity heights.new)) }
{
    match stage {
        Stage::Word(met) => {
            let word = met.word_at(&known.token(place))?;
            Ok(Stage::Value(*met, word))
        }
        Stage::Value(met, word) => {
            let more = met.with_value(*word, place, known)?;
            Ok(Stage::Word(more))
        }
        Stage::Height(layout) => {
            add_height(layout, heights, &known.token(place))?;
            Ok(Stage::Height(*layout))
        }
    }
}

/// Adds a height, for which there is room.
#[tactic(auto, unfolding(crate::specs::Stages::with_height))]
fn add_height(
    layout: &Layout,
    heights: &mut Vec<Option<i32>>,
    token: &Token<'_>,
) -> Result<(), HeightFault>
    requires layout { IsLayout (layout_seen layout.now) }
    requires few { length heights.old.items ≤ layout.now.cols * layout.now.rows }
    requires room { layout.now.cols * layout.now.rows ≤ vec_capacity heights.old }
    requires range { All IsHeight heights.old.items }
    ensures value { result_seen (λ _. at_height (layout_seen layout.now) heights.new.items) result
        ≡ with_height (layout_seen layout.now) heights.old.items (seen token.now) }
    ensures few { length heights.new.items ≤ layout.now.cols * layout.now.rows }
    ensures room { layout.now.cols * layout.now.rows ≤ vec_capacity heights.new }
    ensures range { All IsHeight heights.new.items }
{
    if heights.len() == layout.places() {
        return Err(HeightFault::Trailing(token.place));
    }
    let height = read_height(layout.missing, token)?;
    // There is room since the header ended, so this takes no memory.
    let _ = heights.push(height);
    Ok(())
}

/// The grid, where no height is missing at the end of the text.
fn whole(layout: &Layout, heights: Vec<Option<i32>>) -> Result<Heights, HeightFault>
    requires layout { IsLayout (layout_seen layout.now) }
    requires few { length heights.items ≤ layout.now.cols * layout.now.rows }
    requires range { All IsHeight heights.items }
    ensures { result ≡ whole (layout_seen layout.now) heights.items }
{
    if heights.len() < layout.places() {
        return Err(HeightFault::TooFew(heights.len() as u32));
    }
    Ok(Heights::with_layout(layout, heights))
}

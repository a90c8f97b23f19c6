use crate::ask::ask;
use crate::designs::print_order;
use crate::stretches::{print_begins, print_tally};
use crate::texts::{Part, Texts};
use crate::{designs, places};
use anyhow::{Context, Result, bail};
use std::alloc::Global;

/// A script as far as it was followed.
#[derive(Drop)]
pub struct Script {
    texts: Texts,
    newest: Part,
}

impl Script {
    pub fn new(alloc: Global) -> Script {
        Script {
            texts: Texts::new(alloc),
            newest: Part::Designs,
        }
    }

    /// Follows a line.
    pub fn follow(&mut self, rt: &(impl Print + AllocGlobal), line: &str) -> Result<()> {
        let (first, rest) = line.split_once(' ').unwrap_or((line, ""));
        if let Some(part) = Part::named(first) {
            self.texts.begin(part);
            self.newest = part;
            return Ok(());
        }
        match first {
            "|" => self.texts.append(self.newest, rest),
            "times" => self.append_times(rest),
            "ask" => ask(rt, &self.texts, false, rest),
            "compare" => ask(rt, &self.texts, true, rest),
            "parts" | "inputs" | "at" | "longitude" | "admits" => {
                designs::ask(rt, self.texts.designs.as_str(), first, rest)
            }
            "order" => print_order(rt, rest),
            "cells" => places::print_cells(rt, &self.texts),
            "area" => places::print_area(rt, &self.texts),
            "cut" => print_begins(rt, rest),
            "tally" => print_tally(rt, self.texts.values.as_str(), rest),
            "#" | "" => Ok(()),
            _ => bail!("no line of a script: {line}"),
        }
    }

    /// Appends a line so many times.
    fn append_times(&mut self, words: &str) -> Result<()> {
        let (times, line) = words.split_once(' ').context("a number and a line")?;
        for _ in 0..times.parse::<u32>()? {
            self.texts.append(self.newest, line)?;
        }
        Ok(())
    }
}

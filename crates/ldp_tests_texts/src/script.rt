use crate::escape::bytes_of;
use crate::heights::Fed;
use crate::{decimal, io, question, reading, tokens, zone};
use anyhow::{Context, Result};
use std::alloc::Global;
use std::rt::Files;

/// A script as far as it was followed: the text that stands, and how heights are read.
#[derive(Drop)]
pub struct Script {
    text: Vec<u8>,
    fed: Fed,
}

impl Script {
    pub fn new(alloc: Global) -> Script {
        Script {
            text: Vec::new(alloc),
            fed: Fed::Whole,
        }
    }

    /// Follows a row.
    pub fn follow(&mut self, rt: &(impl Files + Print + AllocGlobal), row: &str) -> Result<()> {
        let (word, rest) = row.split_once(' ').unwrap_or((row, ""));
        match word {
            "#" | "" => Ok(()),
            "text" | "|" | "tail" | "times" => self.edit(rt.alloc(), word, rest),
            "fed" => self.set_fed(rest),
            "case" => io::case(rt, rest),
            "edge" => zone::edge(rt),
            "written" | "short" => decimal::write(rt, word, rest),
            "append" => decimal::append(rt, rest),
            "tokens" => tokens::tokens(rt, rest),
            "height"
            | "centre"
            | "started"
            | "has"
            | "ring"
            | "changed"
            | "beginnings"
            | "line"
            | "system" => question::ask(rt, word, rest, &self.text, self.fed),
            "read" => reading::ask(rt, rest, &self.text, self.fed),
            _ => self.ask_row(rt, word, rest),
        }
    }

    /// Asks of the text that stands in the row itself.
    fn ask_row(&self, rt: &(impl Print + AllocGlobal), word: &str, rest: &str) -> Result<()> {
        let text = bytes_of(rt.alloc(), rest)?;
        reading::ask(rt, word, &text, self.fed)
    }

    fn set_fed(&mut self, rest: &str) -> Result<()> {
        self.fed = Fed::of_row(rest)?;
        Ok(())
    }

    /// Begins a text, or appends to it.
    fn edit(&mut self, alloc: Global, word: &str, rest: &str) -> Result<()> {
        if word == "times" {
            let (times, piece) = rest.split_once(' ').context("a number and a piece")?;
            let piece = bytes_of(alloc, piece)?;
            return self.append(times.parse()?, &piece);
        }
        let piece = bytes_of(alloc, rest)?;
        match word {
            "text" => self.text.clear(),
            _ => self.append(1, &piece)?,
        }
        if word == "|" {
            self.text.push(b'\n')?;
        }
        Ok(())
    }

    fn append(&mut self, times: u32, piece: &[u8]) -> Result<()> {
        for _ in 0..times {
            self.text.extend_from_slice(piece)?;
        }
        Ok(())
    }
}

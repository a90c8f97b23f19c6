use crate::file::NamedFile;
use crate::run::{Ended, Outside, USUAL, run};
use anyhow::{Context, Result, bail, ensure};
use std::alloc::Global;
use std::fs;
use std::rt::Files;

/// A script as far as it was followed: its files, what the next run is like, and what the last one
/// wrote.
#[derive(Drop)]
pub struct Script {
    files: Vec<NamedFile>,
    outside: Outside,
    /// How many lines of the next run's output are printed.
    shown: usize,
    written: Vec<u8>,
}

impl Script {
    pub fn new(alloc: Global) -> Script {
        Script {
            files: Vec::new(alloc),
            outside: USUAL,
            shown: usize::MAX,
            written: Vec::new(alloc),
        }
    }

    /// Follows a line.
    pub fn follow(&mut self, rt: &(impl Files + Print + AllocGlobal), line: &str) -> Result<()> {
        let (first, rest) = line.split_once(' ').unwrap_or((line, ""));
        match first {
            "$" => return self.run(rt, rest),
            "takes" | "fails" | "shows" => return self.set(first, rest),
            "file" | "copy" | "load" | "output" => return self.begin(rt, first, rest),
            "|" | "lines" | "tail" | "line" | "keep" => return self.edit(first, rest),
            "#" => {}
            _ if line.is_empty() => {}
            _ => bail!("no line of a script: {line}"),
        }
        Ok(())
    }

    /// Begins a file.
    fn begin(&mut self, rt: &(impl Files + AllocGlobal), how: &str, rest: &str) -> Result<()> {
        let alloc = rt.alloc();
        let (name, of) = rest.split_once(' ').unwrap_or((rest, ""));
        let file = match how {
            "copy" => NamedFile::new(alloc, name, &self.file(of)?.bytes)?,
            "load" => NamedFile::new(alloc, name, &fs::read(rt, name)?)?,
            "output" => NamedFile::new(alloc, name, &self.written)?,
            _ => NamedFile::new(alloc, name, b"")?,
        };
        self.files.retain(|old| old.name.as_str() != name);
        self.files.push(file)?;
        Ok(())
    }

    fn file(&self, name: &str) -> Result<&NamedFile> {
        self.files
            .iter()
            .find(|file| file.name.as_str() == name)
            .context("no such file")
    }

    /// Changes the newest file.
    fn edit(&mut self, how: &str, rest: &str) -> Result<()> {
        let file = self.files.last_mut().context("no file")?;
        let (number, text) = rest.split_once(' ').unwrap_or((rest, ""));
        match how {
            "|" => file.append_lines(1, rest)?,
            "tail" => file.bytes.extend_from_slice(rest.as_bytes())?,
            "lines" => file.append_lines(number.parse()?, text)?,
            "line" => ensure!(file.replace_line(number.parse()?, text)?, "no such line"),
            _ => ensure!(file.keep_lines(number.parse()?)?, "no such line"),
        }
        Ok(())
    }

    /// Says what the next run is like.
    fn set(&mut self, what: &str, rest: &str) -> Result<()> {
        let (first, second) = rest.split_once(' ').unwrap_or((rest, ""));
        match what {
            "shows" => self.shown = rest.parse()?,
            "takes" => {
                let (out, err) = second.split_once(' ').context("three numbers")?;
                self.outside.pieces = [first.parse()?, out.parse()?, err.parse()?];
            }
            _ => {
                let at = ["shelf", "out", "err"]
                    .iter()
                    .position(|name| *name == first);
                let place = at.context("shelf, out or err")?;
                let fails = self.outside.fails.get_mut(place).context("three places")?;
                *fails = Some(second.parse()?);
            }
        }
        Ok(())
    }

    fn run(&mut self, rt: &(impl Print + AllocGlobal), words: &str) -> Result<()> {
        let ended = run(rt.alloc(), words, &self.files, &self.outside)?;
        print(rt, &ended, self.shown)?;
        self.written = Vec::from_slice(rt.alloc(), ended.out.bytes())?;
        self.outside = USUAL;
        self.shown = usize::MAX;
        Ok(())
    }
}

/// Prints what a run wrote, with a mark where its last line has no line feed, and its status.
fn print(rt: &impl Print, ended: &Ended, shown: usize) -> Result<()> {
    let out = str::from_utf8(ended.out.bytes())?;
    for line in out.split_inclusive('\n').take(shown) {
        print_line(rt, line)?;
    }
    let lines = out.split_inclusive('\n').count();
    if shown < lines {
        println!(rt; "({lines} lines)")?;
    }
    if !ended.err.bytes().is_empty() {
        print!(rt; "error output: ")?;
        print_line(rt, str::from_utf8(ended.err.bytes())?)?;
    }
    println!(rt; "status {}", ended.status)?;
    Ok(())
}

fn print_line(rt: &impl Print, line: &str) -> Result<()> {
    match line.strip_suffix('\n') {
        Some(whole) => println!(rt; "{whole}")?,
        None => println!(rt; "{line}(no line feed)")?,
    }
    Ok(())
}

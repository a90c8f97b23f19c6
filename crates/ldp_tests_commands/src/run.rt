use crate::file::NamedFile;
use ldp_cli::run_words;
use ldp_io::{MemoryShelf, MemorySink};
use std::alloc::{AllocError, Global};

/// How many bytes the shelf, the output and the error output of a run take a call, and which of
/// their calls fail.
#[derive(Clone, Copy)]
pub struct Outside {
    pub pieces: [usize; 3],
    pub fails: [Option<u64>; 3],
}

/// Where no call fails.
pub const USUAL: Outside = Outside {
    pieces: [100_000, 1_000, 3],
    fails: [None; 3],
};

/// How a run ended, and what it wrote.
#[derive(Drop)]
pub struct Ended {
    pub status: u8,
    pub out: MemorySink,
    pub err: MemorySink,
}

/// Carries out the words of a command over these files.
pub fn run(
    alloc: Global,
    words: &str,
    files: &[NamedFile],
    outside: &Outside,
) -> Result<Ended, AllocError> {
    let [shelf_piece, out_piece, err_piece] = outside.pieces;
    let [shelf_fails, out_fails, err_fails] = outside.fails;
    let mut shelf = MemoryShelf::new(alloc, shelf_piece.max(1));
    for file in files {
        shelf.put(file.name.as_str(), &file.bytes)?;
    }
    if let Some(call) = shelf_fails {
        shelf.fail_at(call)?;
    }
    let words = words_of(alloc, words)?;
    let mut out = sink(alloc, out_piece, out_fails)?;
    let mut err = sink(alloc, err_piece, err_fails)?;
    let status = run_words(alloc, &words, &mut shelf, &mut out, &mut err);
    Ok(Ended { status, out, err })
}

fn sink(alloc: Global, piece: usize, fails: Option<u64>) -> Result<MemorySink, AllocError> {
    let mut sink = MemorySink::new(alloc, piece.max(1));
    if let Some(call) = fails {
        sink.fail_at(call)?;
    }
    Ok(sink)
}

/// The words between blanks.
fn words_of(alloc: Global, line: &str) -> Result<Vec<String>, AllocError> {
    let mut words = Vec::new(alloc);
    for word in line.split(' ').filter(|word| !word.is_empty()) {
        words.push(String::from_str(alloc, word)?)?;
    }
    Ok(words)
}

//! `ldp`: hands the words of a command, the files and the streams to the one call that carries it
//! out.
#![tactic(auto)]

use ldp_cli::run_words;
use ldp_io::{FileShelf, StreamSink};
use std::env;
use std::process::ExitCode;

/// The status where the words cannot be had.
const NO_WORDS: u8 = 11;

fn main(rt: HostRuntime) -> ExitCode {
    let Ok(args) = env::args(&rt) else {
        return ExitCode::from(NO_WORDS);
    };
    let Ok(words) = args.skip(1).collect::<Vec<String>>(rt.alloc()) else {
        return ExitCode::from(NO_WORDS);
    };
    let mut shelf = FileShelf::new(&rt);
    let mut out = StreamSink::new(rt.stdout());
    let mut err = StreamSink::new(rt.stderr());
    ExitCode::from(run_words(rt.alloc(), &words, &mut shelf, &mut out, &mut err))
}

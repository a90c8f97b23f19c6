//! The words of a command, the taking of its files, and the one call that carries it out.
#![tactic(auto)]

mod certificate;
mod check;
mod commands;
mod design;
mod ending;
mod eval;
mod hashed;
mod inputs;
mod limits;
mod pieces;
mod problem_files;
mod run;
mod sample;
mod stop;
mod table;
mod take_file;
mod texts;
mod wkt;
mod write_all;

pub use run::run_words;

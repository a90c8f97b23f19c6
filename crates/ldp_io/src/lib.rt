//! The outside as the program sees it: a shelf of files that are read, and a sink for the bytes
//! that are written. A call that fails raises a count, so that a caller's contract can say that a
//! fault came from outside.
#![tactic(auto)]

mod append;
mod count;
mod file_shelf;
mod folder;
mod memory_file;
mod memory_shelf;
mod memory_sink;
mod no_fault_shelf;
mod no_fault_sink;
mod shelf;
mod sink;
mod stream_sink;

pub use file_shelf::FileShelf;
pub use memory_shelf::MemoryShelf;
pub use memory_sink::MemorySink;
pub use no_fault_shelf::NoFaultShelf;
pub use no_fault_sink::NoFaultSink;
pub use shelf::{Next, Opened, Shelf};
pub use sink::{Sink, Wrote};
pub use stream_sink::StreamSink;

/// The error of a call that wants memory.
pub use std::alloc::AllocError as Memory;

//! What the program reads and writes: shelves of files, and sinks of bytes.
//!
//! Contracts see a shelf as a map from names to bytes, which is told or not, with a count of failed
//! reads; and a sink as the bytes written, told or not, with a count of failed writes. The shelves
//! and sinks over memory tell all; those over real files and streams tell nothing, and are proved to
//! fail only where their count rose.
#![tactic(auto)]

mod faults;
mod memory;
mod part;
mod read;
mod script;
mod shelf;
mod sink;
mod sure;
mod system;
mod write;

pub use faults::{Failed, OutOfMemory, ReadRefusal, ShelfFault};
pub use memory::{MemoryShelf, MemorySink};
pub use read::read_whole;
pub use script::Script;
pub use shelf::Shelf;
pub use sink::Sink;
pub use sure::{SureShelf, SureSink};
pub use system::{FileShelf, OutSink};
pub use write::write_all_of;

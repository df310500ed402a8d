//! Partition texts, written: owners as a text that gives them back where it is read.
pub mod metis;
mod names;
mod write;

pub use write::{WriteRefusal, write_partition, written_is_read};

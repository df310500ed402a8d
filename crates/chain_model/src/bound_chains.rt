//! A bound program on several ranks with one exchange for each chain of its Free loops: what each rank needs, which
//! elements it executes, and that the chains run as the program does in sequence.
mod given;
mod one_run;
mod runs;
mod slices;

pub use one_run::chains_are_one;
pub use runs::chains_run_as_sequential;
pub use slices::{messages_are_few, slices_are_backwards};

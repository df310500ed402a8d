//! The runs of a loop's elements on one memory in which each cell has a place of its own, as runs on a store: for any
//! places, and also where kernels don't obey their modes.
mod laws;

pub use laws::placed_elements_run;

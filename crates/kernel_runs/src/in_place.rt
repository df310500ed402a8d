//! Kernels on the cells of a rank's own memory, in place of windows that are gathered from it.
mod laws;
mod running;
mod saving;

pub use laws::{finishes_here, unwritten_stay};
pub use running::{KernelInPlace, run_here};

//! The sample: a program over an unstructured mesh, and the mesh of a square grid of cells for it.
//!
//! `sample` is exact: it gives the two texts for each size of a grid from 1 to `MAX_SIDE`, and refuses every other
//! size.
#![tactic(auto)]

mod arrays;
mod entries;
mod places;
mod refusal;
mod source;
mod write;

pub use places::MAX_SIDE;
pub use refusal::{Sample, SampleRefusal};
pub use source::SOURCE;
pub use write::sample;

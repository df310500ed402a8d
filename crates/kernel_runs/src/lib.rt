//! How the elements of a loop run on the cells of one rank, as one after another, where nothing else runs between them.
//!
//! - [`in_place`]: one element. Its kernel runs on the cells themselves, and ends as on windows that are gathered from
//!   them.
//! - [`row_batches`]: up to 64 elements at once, each with a row of its own in columns that are filled from the cells
//!   and put back. [`row_batches::batch_tables`] makes what a loop's batches look up.
//! - [`worker_batches`]: several such batches at once, by several workers.
//!
//! Callers see one meaning of all three: the kernel ran for so many elements, one after another.
#![tactic(auto)]

pub mod in_place;
pub mod row_batches;
pub mod worker_batches;

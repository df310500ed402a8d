//! There is a distribution and a plan for whatever words ask for.
//!
//! Each function does nothing, and its contract is the law. The values are made in the proofs: lists by number, in
//! vectors that lie nowhere.
mod distributions;
mod numbers;
mod owners;
mod plans;

pub use distributions::{narrow_meshes_fit_memory, some_distribution};
pub use numbers::some_numbers;
pub use owners::{outcomes_fit, some_owners};
pub use plans::some_plan;

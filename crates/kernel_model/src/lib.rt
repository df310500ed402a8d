//! Kernels whose names are resolved: what one does to a store of cells, which accesses it may make, and what follows for its elements.
#![tactic(auto)]

pub mod fault_order;
mod laws;
pub mod operators;
pub mod types;

pub use laws::{
    independence, kernels_are_trees, operators_stay_in_range, others_stay, range_stays, reads_stay,
    rules_are_broken, shape_stays, stored_independence, transport, unstored_stay, walk_finds,
};

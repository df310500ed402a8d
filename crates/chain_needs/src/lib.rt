//! What ranks need and execute in a chain, for all ranks at once: a set of ranks for each pair of a dat and an element,
//! made backwards by walking over the elements of each loop.
#![tactic(auto)]

pub mod chain_slices;
mod chains;
mod counting;
mod executing;
mod needing;
mod owning;
mod reaching;
mod reading;
mod sites;

pub use chains::{chain_sites, executed_at, free_site, needed_at};
pub use counting::{begins_chain, chain_count};
pub use executing::executing_all;
pub use needing::needed_before;
pub use owning::own_sets;
pub use reaching::{element_of, ranks_at};
pub use reading::read_dats;

//! Programs run on ranks by chains of loops, each with one exchange at its start: what a rank needs of its neighbours'
//! work it does again itself. All cells of all ranks stand in one memory, a block for each rank, in which kernels run
//! in place.
#![tactic(auto)]

pub mod chain_memory;
pub mod chain_ranks;
mod dumps;
mod hosts;
mod items;
mod orders;
mod programs;
mod runs;
mod state;
mod supply;

pub use runs::{ChainOutcome, ChainStop, run_chains};

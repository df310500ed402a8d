//! Chains of Free loops with one exchange each: ranks execute further elements redundantly, so that nothing need be
//! exchanged within a chain. The machine that runs them, and the theorem that it runs as the sequential run does; and
//! that it holds of every bound program whose kernels obey their modes (`bound_chains`).
#![tactic(auto)]

pub mod bound_chains;
mod theorem;

pub use theorem::{chains_are_told_by_firsts, chains_run_as_sequential, stores_hold};

//! A bound program and its sequential run; its setup on several ranks, and the distributed machine that a
//! schedule drives. The theorem says that every accepted schedule runs as the sequential run does.
#![tactic(auto)]

pub mod flat_machine;
pub mod schedule_laws;
mod theorem;

pub use theorem::{
    accepted_runs_as_sequential, independence_gives_effects, one_bit_is_the_history,
    one_fault_is_enough,
};

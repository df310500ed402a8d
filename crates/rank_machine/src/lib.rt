//! The machine: the memories of all ranks with the variables, the least recorded fault and the output, and what each
//! step of a distributed program makes of them.
#![tactic(auto)]

pub mod machine;
pub mod messages;
pub mod ranks;
mod reduce;
mod running;
pub mod start;
pub mod steps;
pub mod windows;

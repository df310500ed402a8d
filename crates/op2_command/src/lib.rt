//! A call of `op2`, from its words to its status, over any files, output and error stream.
//!
//! `op2` does what its words say and answers the status; `op2_gated` is the same for every gate. Each call ends as one
//! definition says (`EndsAsDefined` of `specs/Writes.antt`, over `answers`): with the status, the output and the line
//! of the answer that the words and the files have, want of memory and what fails outside aside, each with its own
//! status and line.
#![tactic(auto)]

mod answered;
mod chains;
mod faults;
mod plan_task;
mod plans;
mod runs;
mod schedules;
mod sources;
mod top;

pub use answered::answer_to;
pub use top::{op2, op2_gated};

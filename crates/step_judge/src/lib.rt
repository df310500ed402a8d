//! The judgement of a step in its turn, and of the end of a schedule, by marks of what is taken.
#![tactic(auto)]

mod checker;
mod elements;
mod fresh;
mod judge;
mod laws;
pub mod marks;
mod messages;
mod refusal;
mod search;

pub use checker::StepChecker;
pub use fresh::fresh_marks;
pub use judge::{end_steps, take_step};
pub use laws::taken_lists_are_accepted;
pub use refusal::ScheduleRefusal;
pub use search::first_wanted;

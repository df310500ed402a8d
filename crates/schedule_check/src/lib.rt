//! Whether a schedule of a plan is accepted: each step in its turn, and the end (`Checker`, `take_all`). And what the
//! orders of a plan's steps are read from, with its standard order (`plan_orders`).
#![tactic(auto)]

mod cells;
mod checker;
mod items;
mod marks;
mod pairs;
mod places;
pub mod plan_orders;
mod rows;
mod whole;

pub use cells::{imported_count, local_set};
pub use checker::Checker;
pub use marks::plan_marks;
pub use step_judge::ScheduleRefusal;
pub use whole::{Unaccepted, take_all};

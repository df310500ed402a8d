//! Schedule texts: the steps of a schedule, in order.
//!
//! `read_schedule` is exact: the steps that the text spells, within the limit, are given with their lines, and each
//! refusal is the first in the order of the tokens. `write_schedule` writes one step a line.
mod lines;
mod read;
mod refusals;
mod token;
mod write;

pub use lines::{Line, SCHEDULE_STEPS};
pub use read::{one_outcome, one_schedule, read_schedule};
pub use refusals::ScheduleTextRefusal;
pub use write::{write_schedule, written_is_read};

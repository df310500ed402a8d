//! What a call of the program ends with, as values, and the lines on the errors in which it is said.
//!
//! An `Answer` has the bytes for the output and the line for the errors; a `Refusal` has one variant for each line
//! about words and files, with its status; a `Failure` ends a call that has no answer. A line that tells of a failure
//! takes no memory.
mod call_answer;
mod limits;
mod lines;
mod refusals;
mod reports;

pub use call_answer::{Answer, done, refused};
pub use limits::{PARTITION_BYTES, PLAN_BYTES, SCHEDULE_BYTES, SOURCE_BYTES, STATE_BYTES, most};
pub use lines::{put_counted, put_named, put_placed};
pub use refusals::{Failure, Halt, Limit, Refusal};
pub use reports::{Line, report};

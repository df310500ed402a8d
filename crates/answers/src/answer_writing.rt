//! What a call of a program writes at its end, and the status that it ends with: an answer, or the line of a call that
//! has none.
mod writing;

pub use writing::{write_answer, write_failure};

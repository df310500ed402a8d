//! What is said of a line of `op2`: the line, its status, the place in the source that it names, and what it means.
//!
//! `explain_status` writes it, for a status, a line and the bytes of the source. `specs/Explanation.antt` says what it
//! is, part by part.
#![tactic(auto)]

pub mod carets;
pub mod error_loops;
mod explanation;
pub mod held_files;
mod limits;
pub mod meanings;
pub mod parts;
mod places;
pub mod wrong_words;

pub use explanation::{explain_status, explain_text, put_place};
pub use places::{Place, place_in, word_number};

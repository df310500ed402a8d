//! The reader of a source: bytes to the one tree that they have.
#![tactic(auto)]

mod assignments;
mod calls;
mod cursor;
mod declarations;
mod expressions;
mod faults;
mod hosts;
mod leads;
mod loop_args;
mod reading;
mod statements;
mod tops;

pub use c_tree::SourceRefusal;
pub use reading::{deep_is_far, one_depth, one_tree, read_lexed, read_program, shows_its_tokens};

//! The words of the command line of `op2-tools`: what they ask for, and when they are refused.
//!
//! `clap` judges the words; what its matches mean is defined in `specs/Words.antt`, and `read_words` gives exactly
//! that, with the numbers of its options in their ranges. The words behind `explain` are those of a call of `op2`,
//! whatever they are, which `call_in` gives. The options of a plan are those of `op2`, read as it reads them.
#![tactic(auto)]

mod asked;
mod calls;
mod command;
mod conversions;
mod given;
mod jobs;
mod pictures;
mod read;
mod usage;

pub use asked::{Asked, Picture, PlanJob, ProgramJob};
pub use calls::call_in;
pub use command_words::WordsRefusal;
pub use read::read_words;
pub use usage::{USAGE, VERSION};

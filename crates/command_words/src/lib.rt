//! The words of the command line of `op2`: what they ask for, and when they are refused. And what a call ends with, in
//! lines on the error stream (`answer_lines`).
//!
//! `clap` judges the words; what its matches mean is defined in `specs/Words.antt`, and `read_words` gives exactly
//! that, with the numbers of its options in their ranges. The options of a plan, `options_of`, and a command by its
//! rules, `with_rules`, are there for other programs too.
#![tactic(auto)]

pub mod answer_lines;
mod asked;
mod command;
mod jobs;
mod laws;
mod limits;
mod options;
mod read;
mod refusals;
mod sides;
mod usage;

pub use asked::{
    Asked, Blocks, ChainJob, ChainOptions, Input, Options, Parting, PlanJob, Rule, Schedule,
    Stretch,
};
pub use command::{WordRule, with_rules};
pub use laws::{heads_are_not_dumped, one_fault, option_words_are_within, options_are_within};
pub use limits::{MAX_BLOCK, MAX_GROUP, MAX_RANKS, MAX_WORKERS};
pub use options::{OptionWords, chain_options_of, is_unplanned, options_of, runs_nothing};
pub use read::{is_set, read_words};
pub use refusals::WordsRefusal;
pub use sides::Side;
pub use usage::{USAGE, VERSION};

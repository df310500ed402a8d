//! How large a plan is, loop by loop: runs, messages and their cells, elements, blocks and colours.
//!
//! `specs/Counts.antt` says what each number counts, and `specs/Table.antt` how they are written; `write_counts` writes
//! exactly that.
#![tactic(auto)]

mod fields;
mod imports;
mod loop_texts;
mod loops;
mod messages;
mod sums;
mod table;
mod tallies;
mod totals;
mod types;
mod work;

pub use table::{LEGEND, write_counts};
pub use types::LoopCounts;

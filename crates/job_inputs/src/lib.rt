//! What a job reads: its source, its mesh, its state, its partition and its plan, each read and judged, and how the
//! reading ends where it is refused.
//!
//! `bound_input` gives the program bound to its mesh, whose kernels keep to their accesses; `state_text_of` and
//! `chosen_by` the program whose items run, the whole or a part of it; `numbers_of`, `partition_of` and `owners_of` the
//! new numbers and the owners that the options ask for, and `plan_text_of` the text of a plan. `job_plans` goes from
//! there to the plan. `expect_input` and those beside it say which files a job reads, and in which order; `kept_files`
//! reads each of them once. Of a source alone `translation_of` and `restoration_of` give what it is translated or
//! restored to.
#![tactic(auto)]

mod accesses;
mod awaited;
mod chosen;
mod files;
pub mod job_plans;
pub mod kept_files;
mod known_uses;
mod meshes;
mod owners;
mod plan_texts;
mod programs;
mod sources;
mod translations;

pub use awaited::{expect_blocks, expect_input, expect_parting, expect_schedule, expect_stretch};
pub use chosen::{Chosen, chosen_by, state_text_of};
pub use files::{file_of, sole_file};
pub use meshes::entries_of;
pub use owners::{numbers_of, owners_of, partition_of};
pub use plan_texts::plan_text_of;
pub use programs::bound_input;
pub use sources::{tokens_of, tree_of_tokens};
pub use translations::{restoration_of, translation_of};

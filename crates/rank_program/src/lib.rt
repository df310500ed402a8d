//! A bound program, distributed and planned: what the machine reads of it, and the runs of its elements, in place on a
//! rank's cells or by several workers, each on columns of its own or on a window of one buffer.
#![tactic(auto)]

mod alone;
mod batches;
mod begun;
mod constants;
mod counts;
mod elements;
mod exchanges;
mod here;
mod items;
mod job_targets;
mod joins;
mod kernel_job;
mod kernel_run;
mod laws;
mod laws_copies;
mod local_args;
mod local_loops;
mod many;
mod program;
mod rank_elements;
mod room;
mod row_loops;
mod runnable;
mod share;
mod task_runs;
mod tasks;

pub use alone::run_places;
pub use begun::{original_at, owns_at, push_element};
pub use exchanges::{push_received, push_sent};
pub use job_targets::{job, put_targets};
pub use joins::{owners_copy, push_owned_windows, reduced_scalars};
pub use kernel_job::KernelJob;
pub use kernel_run::run_kernel;
pub use laws::faults_come_together;
pub use program::DistributedProgram;
pub use rank_elements::RankElements;
pub use room::{KernelRoom, MOST_COLUMNS, MOST_SAVED, Room};
pub use row_loops::{comes_in_batches, runs_in_batches};
pub use runnable::Runnable;
pub use task_runs::run_tasks;
pub use tasks::{MOST_ARGS, Targets, Task};

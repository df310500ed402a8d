//! A bound program run on ranks by its plan: the run over the steps of a schedule, each of which shows a step of the
//! machine on flat buffers (`drive`, `run_planned`), and the whole run, in an order that the plan accepts
//! (`planned_run`). `closed_groups` says why elements that begin together and then end may run one after another.
#![tactic(auto)]

mod begins;
mod behind;
pub mod closed_groups;
pub mod drive;
mod gathering;
mod group;
mod group_room;
mod group_steps;
mod hosts;
mod joins;
pub mod laws;
pub mod planned_run;
mod round_room;
mod rounds;
pub mod run_room;
mod running;
mod sharing;
mod standing;
pub mod stream;
mod told;
mod under_way;

pub use rank_machine::machine::Machine;
pub use rank_state::rank_memory::stop::Stop;
pub use running::{Outcome, run_planned};
pub use sharing::come_in_rounds;

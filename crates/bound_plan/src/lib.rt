//! From a bound program, its distribution and its plan to the premises of the theorem on schedules.
//!
//! A bound program on several ranks with a plan is a setup (`setup_of`), and its local meshes are a layout
//! (`layout_of`). The laws here say that this setup and this layout are what the theorem asks, and that the plan's
//! steps are its steps. Two laws more say that such a run is one, wherever its kernels, owners and local meshes lie in
//! memory.
#![tactic(auto)]

mod given;
mod layout;
mod machine;
mod one_run;
mod runs;
mod setup;
mod steps;

pub use layout::{cells_have_one_index, first_states_start, frames_are_reached, layouts_fit};
pub use machine::{elements_stand, frames_have_cells, messages_have_cells};
pub use one_run::{one_dump, one_program};
pub use runs::plans_run_as_sequential;
pub use setup::{setups_are_coloured, setups_are_lawful, setups_have_parts};
pub use steps::plans_are_by_place;

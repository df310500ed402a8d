//! Declarations, judged in the order of the text: the externs, variables and kernels of the file, and the sets, maps,
//! dats, constants and variables of `main`.
#![tactic(auto)]

mod constants;
mod declarations;
mod file_walk;
mod map_walk;
mod mesh_notes;
mod mesh_walk;
pub mod names;

pub use constants::{glob_token, judged_constant, note_ampersand};
pub use declarations::{add_act, add_step, judged_declrs, with_turning};
pub use file_walk::judged_tops;
pub use map_walk::judged_map;
pub use mesh_notes::{note_set, note_type};
pub use mesh_walk::{judged_dat, judged_set};

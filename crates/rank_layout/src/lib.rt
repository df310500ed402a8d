//! The layout of a bound program on ranks: the tables that the machine looks up, where the windows of elements and the
//! cells of messages stand in the buffers of ranks, and what these hold at first.
#![tactic(auto)]

mod constant_table;
mod dat_windows;
mod element_windows;
mod fault_table;
mod first;
mod laws;
mod laws_owned;
mod laws_sent;
mod laws_steps;
mod laws_tables;
mod making;
mod messages;
mod modified;
mod owned_windows;
mod place_table;
mod rooms;
mod scalar_tables;
mod sites;
mod tables;
mod widths;
mod windows;
mod write_table;

pub use dat_windows::targets_of;
pub use element_windows::push_local_windows;
pub use first::{first_memories, first_variables};
pub use laws::{element_windows_stand, first_cells_stand, windows_stand};
pub use laws_owned::{owned_stand, reduces_are_there, variables_stand};
pub use laws_sent::{exports_are_few, receives_stand, rooms_stand, sends_stand};
pub use laws_steps::steps_stand;
pub use laws_tables::{places_stand, scalars_stand, slots_stand, tables_are_indexed};
pub use messages::{push_exports, push_imports};
pub use owned_windows::{OwnedDats, owners_span, push_windows};
pub use rooms::most_spans;
pub use sites::args_of;
pub use tables::{MachineTables, row_of};
pub use windows::{MAX_ARGS, element_by, put_windows};

//! All cells of a program on all ranks in one memory, a block for each rank: where cells stand, and runs of elements in
//! place, in a rank's block or on the owners' pairs.
mod blocks;
mod cells;
pub mod chain_stores;
mod elements;
mod layouts;
mod loops;
pub mod placed_runs;
mod places;

pub use blocks::Blocks;
pub use cells::{copy_cells, fill_cells};
pub use elements::{run_element, target_of};
pub use layouts::{Layout, first_block, layout_of};
pub use loops::{Loop, MAX_ARGS, MOST_SAVED, loop_of};
pub use places::{owner_of, pair_at, variable_at, width_of};

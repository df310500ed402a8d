//! The stores of all ranks and the variables in one memory of blocks: pairs and variables are set and copied.
mod lists;
mod pairs;
mod starts;
mod variables;

pub use lists::{clear_pairs, copy_pairs};
pub use pairs::{clear_pair, copy_pair};
pub use starts::{first_cells, start_owners};
pub use variables::{copy_variable, fill_variable};

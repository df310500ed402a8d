//! Batches of a loop's elements on a rank: up to 64 of them at once, each with a row of its own in columns.
mod batch;
pub mod batch_tables;
mod filling;
mod laws;
mod meeting;
mod places;
mod putting;
mod rows;
mod ways;

pub use batch::{FEWEST, run_batch};
pub(crate) use batch::{put_aside, run_aside};
pub(crate) use laws::{asides_stay, places_stay_apart};
pub use places::batch_at;
pub(crate) use places::batches_of;
pub use rows::{RowColumn, RowLoop, RowRoom};
pub use ways::{LocalVia, local_number};

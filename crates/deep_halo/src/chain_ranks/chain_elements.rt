//! The elements of a loop on a rank, in the rank's block: what its kernel is given, and what is taken over from its
//! run.
mod constants;
mod dropping;
mod globals;
mod merging;

pub use constants::read_constants;
pub use dropping::drop_unheld;
pub use globals::{operation_of, put_globals};
pub use merging::{merge_cells, merge_globals, partial_at};

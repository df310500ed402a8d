//! Batches of a loop's elements on a rank that several workers run at once: each worker fills columns of its own from
//! the memory, which all read, and runs the kernel there; then one thread puts the columns back, batch after batch.
mod aside;
mod at_once;
mod differing;
mod room;
mod rounds;

pub use at_once::{Workers, most_at_once, run_at_once};
pub use room::BatchesRoom;

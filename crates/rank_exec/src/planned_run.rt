//! Programs on several ranks that take their steps in an order that the checker accepts.
mod orders;
mod peaks;
mod rooms;
mod running;

pub use crate::Outcome;
pub use orders::{Order, judge_list, steps_of};
pub use peaks::{peaks_are_room, standard_has_room};
pub use running::run_on_ranks;

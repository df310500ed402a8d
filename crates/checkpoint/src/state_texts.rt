//! State texts: what a file says of a run that stopped before an item, so that the rest can go on from there.
//!
//! `specs/Reading.antt` says which state a file tells, or which is its first line that is refused;
//! `specs/StateTextLaws.antt` that this is one thing, and that a state which was written is read.
mod dats;
mod laws;
mod lines;
mod reading;
mod refusals;
mod vars;

pub use laws::{cuts_are_read, names_are_plain, one_state, some_state, written_states_are_read};
pub use reading::read_state;
pub use refusals::StateRefusal;

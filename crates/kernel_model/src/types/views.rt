//! The cells that a kernel's arguments name, in one lent buffer.
mod cutting;
mod frame;

pub use cutting::cut;
pub use frame::{Frame, Place, are_places_in};

//! Bytes cut at each separator, as lines at LFs.
//!
//! `cut` gives the first part and what is behind it, and `part_at` one of the parts. Neither allocates nor copies.
//! `specs/Cuts.antt` says what the parts are.
mod cutting;

pub use cutting::{cut, part_at};

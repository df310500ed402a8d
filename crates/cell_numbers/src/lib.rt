//! Numbers for the elements of a set of a mesh on ranks, for pictures: who owns each, what one rank has of each, or the
//! colours of a loop's blocks.
//!
//! `numbers_of` gives the numbers that `specs/Shown.antt` defines, or the first cause why there are none.
#![tactic(auto)]

mod blocks;
mod owned;
mod shown;
mod types;
mod words;

pub use shown::numbers_of;
pub use types::{Shown, ShownRefusal};
pub use words::put_shown;

//! Keys that are equal: the classes of equal keys, and the mates of keys that stand at most twice.
//!
//! A mesh's faces are found so: each side of a cell is a key, and a face between two cells is a key that stands twice.
mod classing;
mod pairing;
mod rows;

pub use classing::classes;
pub use pairing::{MateRefusal, mates};
pub use rows::row_classes;

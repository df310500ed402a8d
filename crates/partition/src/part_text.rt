//! Partition texts: for each set of a mesh, the rank of each of its elements.
//!
//! `read_partition` is exact: owners that the text spells are given, and each refusal is the first in the order of the
//! tokens.
mod read;
mod refusals;
mod token;

pub use read::{one_outcome, one_partition, read_partition};
pub use refusals::PartRefusal;

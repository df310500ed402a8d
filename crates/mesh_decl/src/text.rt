//! Mesh texts: named entries of integers, in two versions of one format.
//!
//! `read_mesh` is exact: what is spelled within the limit is read, with the one value, and each refusal is the first in
//! the order of the tokens. `write_mesh` writes the canonical text of a version.
mod entry;
mod piece;
mod read;
mod token;
mod write;

pub use entry::{Entries, Entry, Form, MESH_BYTES, MESH_VALUES, MeshRefusal, Values};
pub use read::{one_outcome, one_spelling, read_mesh};
pub use write::{read_can_be_written, write_mesh, written_is_spelled};

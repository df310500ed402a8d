//! Files that are read at most once in a call.
//!
//! `Kept` has the readings of files that are still to come, in order, and of each name among them the bytes, where its
//! file was read before: so a file that is named twice has one content, also where its shelf doesn't tell what it
//! holds.
mod kept;
mod laws;

pub use kept::Kept;
pub use laws::some_files_are_as_seen;

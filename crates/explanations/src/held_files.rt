//! Files that are held in memory, and lent to what reads files.
//!
//! `HeldFiles` holds them by name; `lent` gives a shelf that reads them and never fails, so that several can read one
//! after another and all see the same. `specs/Held.antt` has what contracts see of them.
mod held;
mod lent;

pub use held::HeldFiles;
pub use lent::LentFiles;

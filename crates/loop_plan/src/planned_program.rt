//! A bound program with its mesh on several ranks and its plan there, as one type whose parts fit each other.
//!
//! What it keeps is `FitTogether`, in `specs/Planned.antt`: so a call that takes a `Planned` asks nothing more of its
//! parts.
mod planned;

pub use planned::Planned;

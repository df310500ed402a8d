//! Texts whose form goes by lines: bytes cut into lines at each LF, and a line cut into words at single spaces.
//!
//! `Lines` gives one line after another, and counts them; `Words` gives one word after another. Neither allocates nor
//! copies. `specs/CutLines.antt` says what a line is, and what its words are.
mod laws;
mod lines;
mod words;

pub use laws::{lines_are_one, words_are_joined, words_are_one};
pub use lines::Lines;
pub use words::Words;

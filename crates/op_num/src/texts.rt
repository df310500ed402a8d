//! What formats of texts share. Texts of tokens are cut at blanks into tokens, each with its line, which are read one
//! after another; texts of lines are cut into lines, and a line into words (`line_texts`).
//!
//! `Tokens` cuts into tokens. A format says by a state what is awaited, and by `step` and `finish` what a token or the
//! end does there; `specs/Automaton.antt` defines reading and the first refusal for any such format, and
//! `proofs/texts/Exact.antt` has what is to be shown of a format so that its reader is exact. `specs/Lines.antt`
//! defines text that is written line by line.
mod cutter;
pub mod line_texts;
mod lines;
mod short;

pub use cutter::{Token, Tokens};
pub use lines::lines_are_cut;

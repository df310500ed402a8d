//! Pieces of what a program printed: one printed dat out of the output of a run.
//!
//! `piece_of` cuts the output by the program's trace, which says how many lines stand before a dat's first line, and
//! how many rows behind it: what a line looks like cuts nothing. `specs/Pieces.antt` defines the piece. `last_rows`
//! gives the lines of a dat's elements where the program prints it last, which `specs/Last.antt` defines.
mod headers;
mod last;
mod laws;
mod lines;
mod pieces;
mod prints;
mod refusals;

pub use last::{LastRows, last_rows};
pub use laws::{pieces_are_one, runs_have_pieces};
pub use pieces::piece_of;
pub use refusals::PieceRefusal;

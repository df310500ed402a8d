//! Places in a source, shown: a line of it, and under the line a caret.
//!
//! `line_at` gives a line by its number, and `put_marked` writes it with a caret under one of its bytes.
//! `specs/Carets.antt` says what stands under each byte of a line, so that the caret is where a terminal or an editor
//! shows the byte.
mod carets;
mod lines;

pub use carets::put_marked;
pub use lines::line_at;

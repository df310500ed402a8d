//! Why a program is not bound, and which of all that is wrong with a statement counts.
mod founds;
mod laws;
mod refusals;

pub use c_tree::Pos;
pub use founds::{Found, Turn, note, note_if, note_in, note_over, place, refuse};
pub use laws::first_is_answered;
pub use refusals::{BindRefusal, Counted};

//! The tokens of a source.
mod classes;
mod front;
mod lexing;
mod passed;
mod places;
mod refusals;
mod spelling;
mod texts;
mod tokens;

pub use lexing::{lex, one_outcome, some_outcome, tokens_are_few, tokens_in_order};
pub use op_num::{Name, Text};
pub use places::end_place;
pub use refusals::LexRefusal;
pub use tokens::{Kind, Pos, Sign, Token, Word};

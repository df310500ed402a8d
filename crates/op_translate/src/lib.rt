//! Sources whose loop calls are calls of stubs, and back.
//!
//! `translate` makes each call of a loop a call of its own stub, as OP2's translator does, and puts a table of the
//! stubs behind the source. `restore` makes each call of a stub a call of `op_par_loop` again.
#![tactic(auto)]

mod edits;
mod laws;
mod names;
mod refusals;
mod restoring;
mod table;
mod translating;

pub use laws::{one_restoration, one_translation, restores_translations};
pub use refusals::TransRefusal;
pub use restoring::restore;
pub use translating::translate;

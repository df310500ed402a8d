//! What the errors of `op2` mean: the cause of each number of each kind, and what to do about it, as docs/ERRORS.md and
//! docs/COMMANDS.md have it.
//!
//! Each text is a line of a table: its name, what the lines of `op2` begin with that it explains, the cause, and what
//! to do, with tabs between them. `text_named` finds a text by its name, as `access 4`, and `text_of_line` by a line of
//! `op2`; `put_text` writes one. A script keeps the pages and the tables equal (`tests/error_texts.py`).
mod bindings;
mod files;
mod finding;
mod limits;
mod program;
mod showing;
mod sources;
mod statuses;

pub use finding::{text_named, text_of_line};
pub use showing::put_text;

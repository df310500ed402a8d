//! Tables of rows, each a call of `op2` or `op2-tools` over files in memory with the end that it must have: the tables
//! as data, and the files of a row.
//!
//! A table is a text in TOML, which `toml::from_str` reads as a `Table`; `crates/op2_rows/README.md` tells its fields.
//! `files_of` gives the files that a call of a row finds, where its texts are there and its changes have their places.
#![tactic(auto)]

mod files;
mod table;

pub use files::{File, RowFault, edited, files_of, pad, text_of};
pub use table::{Edit, Row, Table};

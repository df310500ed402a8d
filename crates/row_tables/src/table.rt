// A table of rows, as its text in TOML has it. README.md says what each field means.

use serde::Deserialize;
use std::collections::BTreeMap;

/// A table: texts that rows share, by name, and its rows.
#[derive(Drop, Deserialize)]
#[serde(deny_unknown_fields)]
pub struct Table {
    #[serde(default)]
    pub texts: BTreeMap<String, String>,
    #[serde(default)]
    pub row: Vec<Row>,
}

/// A row: a call of `op2`, or of `op2-tools`, over files in memory, and how it ends.
#[derive(Drop, Deserialize)]
#[serde(deny_unknown_fields)]
pub struct Row {
    /// What the row shows.
    pub name: String,
    /// Whether `op2-tools` is called.
    #[serde(default)]
    pub tools: bool,
    /// The words behind the program's name.
    pub words: Vec<String>,
    /// The files that are texts: the name of each, with the name of its text.
    #[serde(default)]
    pub files: BTreeMap<String, String>,
    /// Changes of these files, one after another.
    #[serde(default)]
    pub edits: Vec<Edit>,
    /// Files that are given by the hexadecimal digits of their bytes.
    #[serde(default)]
    pub bytes: BTreeMap<String, String>,
    /// Files that are filled up with blanks to so many bytes.
    #[serde(default)]
    pub padded: BTreeMap<String, u64>,
    /// The status that the call ends with.
    #[serde(default)]
    pub status: u8,
    /// What it writes to the output, where that isn't a text of the table; nothing where neither is given.
    pub out: Option<String>,
    /// The name of the text that it writes to the output.
    pub out_text: Option<String>,
    /// A text that stands somewhere in what it writes to the output, of which nothing else is told.
    pub has: Option<String>,
    /// The line that it writes to the error stream, without its end; nothing is written there where none is given.
    pub err: Option<String>,
    /// The number of the read that fails, from 0.
    pub read_fails: Option<u64>,
    /// The number of the write to the output that fails, from 0.
    pub write_fails: Option<u64>,
    /// The number of the write to the error stream that fails, from 0.
    pub report_fails: Option<u64>,
    /// How many bytes the output has room for.
    pub room: Option<u64>,
    /// The file of which the calls see the proper prefixes, less that which lacks its last byte alone.
    pub cuts: Option<String>,
}

/// A change of a file: its name, a text that stands in it, and the text that its first place gets.
#[derive(Drop, Deserialize)]
pub struct Edit(pub String, pub String, pub String);

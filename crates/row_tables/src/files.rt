// The files of a row.

ghost use Rattle.std.specs.Prelude.{◌≡◌, ◌-◌, ◌++◌, ℕ, List, None, Some, take, drop, length, replicate, string_bytes, IfOk, OnOk};
ghost use Rattle.std.specs.Option.{MatchOption};
ghost use Rattle.std.specs.Str.Pattern.{FindsText};

use crate::table::{Edit, Row, Table};
use std::alloc::{AllocError, Global};
use thiserror::Error;

/// A file: its name and its bytes.
#[derive(Drop)]
pub struct File {
    pub name: String,
    pub bytes: Vec<u8>,
}

/// Why a row can't be called.
#[derive(Debug, Drop, Error)]
pub enum RowFault {
    /// The table has no text of this name.
    #[error("no text {0:?}")]
    NoText(String),
    /// The row has no file of this name that is a text.
    #[error("no file {0:?}")]
    NoFile(String),
    /// The text that is to be replaced doesn't stand in its file.
    #[error("{0:?} is not in its file")]
    NoPlace(String),
    /// The digits of this file's bytes aren't hexadecimal, or one of them is alone.
    #[error("the bytes of {0:?} are not hexadecimal")]
    NotHex(String),
    /// Want of memory.
    #[error("out of memory")]
    OutOfMemory(#[from(alloc)] AllocError),
}

/// The text of this name, or a fault.
pub fn text_of<'a>(alloc: Global, table: &'a Table, name: &str) -> Result<&'a str, RowFault> {
    match table.texts.get(name) {
        Some(text) => Ok(text.as_str()),
        None => Err(RowFault::NoText(String::from_str(alloc, name)?)),
    }
}

/// The text with `new` in the place of its first `old`; nothing where there is no `old` in it.
pub fn edited(alloc: Global, text: &str, old: &str, new: &str) -> Result<Option<String>, AllocError>
    ensures { IfOk result (λ r. MatchOption r (FindsText old.now text.now None)
        (λ s. (i : ℕ) × (j : ℕ) × FindsText old.now text.now (Some (i, j))
        × (string_bytes s ≡ take i text.now ++ (new.now ++ drop j text.now)))) }
{
    match text.split_once(old) {
        None => Ok(None),
        Some((front, back)) => Ok(Some(format!(in alloc; "{front}{new}{back}")?)),
    }
}

/// Fills bytes up with blanks, so that there are as many as `size`; where there are more they stay.
pub fn pad(bytes: &mut Vec<u8>, size: u64) -> Result<(), AllocError>
    ensures { OnOk result (bytes.new.items ≡ bytes.old.items ++ replicate (size - length bytes.old.items) 32) }
{
    let size = size as usize;
    if bytes.len() < size {
        bytes.resize(size, b' ')
    } else {
        Ok(())
    }
}

// The text of a file after the changes of the row that name it.
fn changed(alloc: Global, name: &str, text: &str, edits: &[Edit]) -> Result<String, RowFault> {
    let mut text = String::from_str(alloc, text)?;
    for Edit(file, old, new) in edits {
        if file.as_str() == name {
            text = match edited(alloc, text.as_str(), old.as_str(), new.as_str())? {
                Some(text) => text,
                None => return Err(RowFault::NoPlace(old.clone()?)),
            };
        }
    }
    Ok(text)
}

// The bytes of which these are the hexadecimal digits, two for each; `name` is their file.
fn from_digits(alloc: Global, name: &str, digits: &str) -> Result<Vec<u8>, RowFault> {
    let mut bytes = Vec::new(alloc);
    for pair in digits.split_whitespace() {
        match hex::decode(alloc, pair) {
            Ok(more) => bytes.extend_from_slice(&more)?,
            Err(_) => return Err(RowFault::NotHex(String::from_str(alloc, name)?)),
        }
    }
    Ok(bytes)
}

/// The files that a call of the row finds.
pub fn files_of(alloc: Global, table: &Table, row: &Row) -> Result<Vec<File>, RowFault> {
    for Edit(file, _, _) in &row.edits {
        if !row.files.contains_key(file.as_str()) {
            return Err(RowFault::NoFile(file.clone()?));
        }
    }
    let mut files = Vec::new(alloc);
    for (name, text) in &row.files {
        let text = changed(
            alloc,
            name.as_str(),
            text_of(alloc, table, text.as_str())?,
            &row.edits,
        )?;
        let mut bytes = text.into_bytes();
        if let Some(size) = row.padded.get(name.as_str()) {
            pad(&mut bytes, *size)?;
        }
        files.push(File {
            name: name.clone()?,
            bytes,
        })?;
    }
    for (name, digits) in &row.bytes {
        let bytes = from_digits(alloc, name.as_str(), digits.as_str())?;
        files.push(File {
            name: name.clone()?,
            bytes,
        })?;
    }
    Ok(files)
}

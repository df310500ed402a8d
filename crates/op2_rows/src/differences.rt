// In what the calls of a row end in another way than the row says.

use crate::call::{Ended, called};
use row_tables::{File, Row, RowFault, Table, files_of, text_of};
use std::alloc::{AllocError, Global};
use std::marker::Sync;
use std::thread::Threads;

// What is told of an output.
#[derive(Clone, Copy)]
enum Output<'a> {
    // All of it.
    Is(&'a str),
    // A text that stands in it.
    Has(&'a str),
}

// How a call must end: its status, its output, and what it writes to the error stream.
#[derive(Drop)]
struct Wanted<'a> {
    status: u8,
    out: Output<'a>,
    err: String,
}

// How a row says that its call ends.
fn wanted_of<'a>(alloc: Global, table: &'a Table, row: &'a Row) -> Result<Wanted<'a>, RowFault> {
    let out = match (&row.out, &row.out_text, &row.has) {
        (Some(out), _, _) => Output::Is(out.as_str()),
        (None, Some(name), _) => Output::Is(text_of(alloc, table, name.as_str())?),
        (None, None, Some(part)) => Output::Has(part.as_str()),
        (None, None, None) => Output::Is(""),
    };
    let err = match &row.err {
        Some(line) => format!(in alloc; "{line}\n")?,
        None => String::new(alloc),
    };
    Ok(Wanted {
        status: row.status,
        out,
        err,
    })
}

// Adds a line where the bytes of one of the two streams aren't those wanted.
fn put_unlike(
    lines: &mut String,
    alloc: Global,
    stream: &str,
    got: &[u8],
    wanted: &str,
) -> Result<(), AllocError> {
    if got == wanted.as_bytes() {
        return Ok(());
    }
    let got = String::from_utf8_lossy(alloc, got)?;
    let line = format!(in alloc; "  {stream} {got:?}, wanted {wanted:?}\n")?;
    lines.push_str(line.as_str())
}

// Adds a line where the output isn't as wanted.
fn put_output(
    lines: &mut String,
    alloc: Global,
    got: &[u8],
    wanted: Output<'_>,
) -> Result<(), AllocError> {
    match wanted {
        Output::Is(text) => put_unlike(lines, alloc, "output", got, text),
        Output::Has(part) => {
            let got = String::from_utf8_lossy(alloc, got)?;
            if got.split_once(part).is_some() {
                return Ok(());
            }
            let line = format!(in alloc; "  output {got:?}, wanted in it {part:?}\n")?;
            lines.push_str(line.as_str())
        }
    }
}

// Adds a line for each part of an end that isn't the one wanted.
fn put_differences(
    lines: &mut String,
    alloc: Global,
    ended: &Ended,
    wanted: &Wanted<'_>,
) -> Result<(), AllocError> {
    if ended.status != wanted.status {
        let (got, wanted) = (ended.status, wanted.status);
        lines.push_str(format!(in alloc; "  status {got}, wanted {wanted}\n")?.as_str())?;
    }
    put_output(lines, alloc, ended.out.bytes(), wanted.out)?;
    put_unlike(lines, alloc, "line", ended.err.bytes(), wanted.err.as_str())
}

// Whether bytes are one line that begins as each of the program's does.
fn is_line(bytes: &[u8]) -> bool {
    match bytes {
        [line @ .., b'\n'] => line.starts_with(b"op2: ") && !line.contains(&b'\n'),
        _ => false,
    }
}

// The bytes of the file of this name.
fn bytes_of<'a>(alloc: Global, files: &'a [File], name: &str) -> Result<&'a [u8], RowFault> {
    for file in files {
        if file.name.as_str() == name {
            return Ok(&file.bytes);
        }
    }
    Err(RowFault::NoFile(String::from_str(alloc, name)?))
}

// Adds a line for each proper prefix of a file, less the one that lacks its last byte alone, which isn't refused
// with the row's status and a line.
fn put_accepted<R: Threads + Sync>(
    lines: &mut String,
    rt: &R,
    alloc: Global,
    row: &Row,
    files: &[File],
    name: &str,
) -> Result<(), RowFault> {
    let whole = bytes_of(alloc, files, name)?.len();
    for length in 0..whole.saturating_sub(1) {
        let ended = called(rt, alloc, row, files, Some((name, length)))?;
        let silent = ended.out.bytes().is_empty();
        if ended.status != row.status || !silent || !is_line(ended.err.bytes()) {
            let (got, wanted) = (ended.status, row.status);
            let err = String::from_utf8_lossy(alloc, ended.err.bytes())?;
            let line = format!(in alloc;
                "  {length} bytes of {name}: status {got}, wanted {wanted}; line {err:?}\n"
            )?;
            lines.push_str(line.as_str())?;
        }
    }
    Ok(())
}

/// The lines that say in what the calls of a row differ from it; none where they don't.
pub fn differences<R: Threads + Sync>(
    rt: &R,
    alloc: Global,
    table: &Table,
    row: &Row,
) -> Result<String, RowFault> {
    let files = files_of(alloc, table, row)?;
    let mut lines = String::new(alloc);
    match &row.cuts {
        Some(name) => put_accepted(&mut lines, rt, alloc, row, &files, name.as_str())?,
        None => {
            let wanted = wanted_of(alloc, table, row)?;
            let ended = called(rt, alloc, row, &files, None)?;
            put_differences(&mut lines, alloc, &ended, &wanted)?;
        }
    }
    Ok(lines)
}

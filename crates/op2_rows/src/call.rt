// A call of `op2`, or of `op2-tools`, over files in memory.

use op_outside::{MemoryShelf, MemorySink};
use op2_command::op2;
use row_tables::{File, Row};
use std::alloc::{AllocError, Global};
use std::marker::Sync;
use std::thread::Threads;
use tool_command::tools;

// How many bytes there is room for where a row doesn't say it.
const ROOM: u64 = 1 << 20;

/// How a call ended: its status, and what it wrote to the output and to the error stream.
#[derive(Drop)]
pub struct Ended {
    pub status: u8,
    pub out: MemorySink,
    pub err: MemorySink,
}

// The numbers of the calls that fail.
fn listed(alloc: Global, number: Option<u64>) -> Result<Vec<u64>, AllocError> {
    match number {
        None => Ok(Vec::new(alloc)),
        Some(number) => Ok(vec![in alloc; number]?),
    }
}

// The words of a call, the program's name first.
fn words_of(alloc: Global, row: &Row) -> Result<Vec<String>, AllocError> {
    let mut words = Vec::new(alloc);
    let program = if row.tools { "op2-tools" } else { "op2" };
    words.push(String::from_str(alloc, program)?)?;
    for word in &row.words {
        words.push(word.clone()?)?;
    }
    Ok(words)
}

/// The call that a row tells, over these files: whole, or all of a file but what stands behind a length in bytes.
pub fn called<R: Threads + Sync>(
    rt: &R,
    alloc: Global,
    row: &Row,
    files: &[File],
    cut: Option<(&str, usize)>,
) -> Result<Ended, AllocError> {
    let mut shelf = MemoryShelf::new(alloc, listed(alloc, row.read_fails)?);
    for file in files {
        let bytes = match cut {
            Some((name, length)) if file.name.as_str() == name => front(&file.bytes, length),
            _ => &file.bytes,
        };
        shelf.hold(file.name.clone()?, bytes.to_vec(alloc)?)?;
    }
    let room = row.room.unwrap_or(ROOM) as usize;
    let mut out = MemorySink::new(alloc, room, listed(alloc, row.write_fails)?)?;
    let mut err = MemorySink::new(alloc, ROOM as usize, listed(alloc, row.report_fails)?)?;
    let words = words_of(alloc, row)?;
    let status = if row.tools {
        tools(rt, alloc, &words, &mut shelf, &mut out, &mut err)
    } else {
        op2(rt, alloc, &words, &mut shelf, &mut out, &mut err)
    };
    Ok(Ended { status, out, err })
}

// At most so many bytes from the first on.
fn front(bytes: &[u8], length: usize) -> &[u8] {
    &bytes[..length.min(bytes.len())]
}

//! Calls `op2` in memory as rows of tables say, and prints each row whose calls end in another way than it says.
//!
//! The words are the files of the tables, in TOML; README.md tells their fields. It ends with status 1 where a row
//! differs.
#![tactic(auto)]

mod call;
mod differences;

use crate::differences::differences;
use row_tables::Table;
use std::marker::Sync;
use std::process::ExitCode;
use std::rt::Env;
use std::thread::Threads;
use std::{env, fs};

fn main(rt: HostRuntime) -> anyhow::Result<ExitCode> {
    let mut words = env::args(&rt)?;
    let _program = words.next();
    let (mut rows, mut differing) = (0u64, 0u64);
    for name in words {
        let text = fs::read_to_string(&rt, name.as_str())?;
        let table: Table = toml::from_str(rt.alloc(), text.as_str())?;
        let count = table.row.len() as u64;
        let unlike = differing_rows(&rt, name.as_str(), &table)?;
        println!(rt; "{name}: {count} rows, {unlike} differ")?;
        rows = rows.saturating_add(count);
        differing = differing.saturating_add(unlike);
    }
    println!(rt; "{rows} rows, {differing} differ")?;
    Ok(ExitCode::from(if differing == 0 { 0 } else { 1 }))
}

// How many rows of a table differ; each of them is printed.
fn differing_rows<R: Threads + Sync + Print + AllocGlobal>(
    rt: &R,
    name: &str,
    table: &Table,
) -> anyhow::Result<u64> {
    let mut count = 0u64;
    for row in &table.row {
        let lines = match differences(rt, rt.alloc(), table, row) {
            Ok(lines) => lines,
            Err(fault) => format!(in rt.alloc(); "  {fault}\n")?,
        };
        if !lines.is_empty() {
            print!(rt; "{name}: {}\n{lines}", row.name)?;
            count = count.saturating_add(1);
        }
    }
    Ok(count)
}

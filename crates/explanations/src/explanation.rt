// What is said of a line and its status.
ghost use Rattle.std.specs.Prelude.{◌≡◌, ◌++◌, codes, option_map, OnOk, IfOk};
ghost use Rattle.std.specs.Fmt.{decimal};
ghost use Rattle.explanations.specs.Texts.{shown_text};
ghost use Rattle.explanations.specs.Explanation.{shown_line, shown_place, shown_at, meaning, explanation, said};

use crate::carets::{line_at, put_marked};
use crate::limits::put_sizes;
use crate::meanings::{put_text, text_of_line};
use crate::places::{Place, place_in, tells_place};
use op_num::{OutOfMemory, put_u64};
use std::alloc::Global;

// A line of the source with a caret, if there is one.
fn put_line(out: &mut Vec<u8>, line: Option<&[u8]>, column: u64) -> Result<(), OutOfMemory>
    ensures { OnOk result (out.new.items ≡ out.old.items ++ shown_line (option_map (λ l. l.now) line.entry) column) }
{
    match line {
        Some(line) => put_marked(out, line, column),
        None => Ok(()),
    }
}

/// Appends the line of a place in the source and a caret under the place, if one is told and the source has the line.
/// An error is want of memory.
pub fn put_place(out: &mut Vec<u8>, source: &[u8], place: Option<Place>) -> Result<(), OutOfMemory>
    ensures { OnOk result (out.new.items ≡ out.old.items ++ shown_place source.now place) }
{
    match place {
        Some(at) => put_line(out, line_at(source, at.line), at.column),
        None => Ok(()),
    }
}

// The place in the source that a line tells.
fn put_at(out: &mut Vec<u8>, line: &[u8], source: Option<&[u8]>) -> Result<(), OutOfMemory>
    ensures { OnOk result (out.new.items ≡ out.old.items ++ shown_at line.now (option_map (λ s. s.now) source.entry)) }
{
    let Some(source) = source else {
        return Ok(());
    };
    if tells_place(line) {
        put_place(out, source, place_in(line))
    } else {
        Ok(())
    }
}

// The text of a line, if there is one.
fn put_meaning(out: &mut Vec<u8>, text: Option<&[u8]>) -> Result<(), OutOfMemory>
    ensures { OnOk result (out.new.items ≡ out.old.items ++ meaning (option_map (λ t. t.now) text.entry)) }
{
    match text {
        Some(text) => put_text(out, text),
        None => Ok(()),
    }
}

// The line of a status.
fn put_status(out: &mut Vec<u8>, status: u8) -> Result<(), OutOfMemory>
    ensures { OnOk result (out.new.items ≡ out.old.items ++ codes "status " ++ decimal status ++ codes "\n") }
{
    out.extend_from_slice(b"status ")?;
    put_u64(out, u64::from(status))?;
    out.extend_from_slice(b"\n")
}

// The explanation of a line.
fn put_explanation(
    out: &mut Vec<u8>,
    status: u8,
    line: &[u8],
    source: Option<&[u8]>,
) -> Result<(), OutOfMemory>
    ensures { OnOk result (out.new.items ≡ out.old.items
        ++ explanation status line.now (option_map (λ s. s.now) source.entry)) }
{
    out.extend_from_slice(line)?;
    put_status(out, status)?;
    put_at(out, line, source)?;
    put_sizes(out, line)?;
    put_meaning(out, text_of_line(line))
}

/// What is said of a status and its line: that `op2` would end well with status 0; or the line, the status, the line of
/// the source with a caret where the line of `op2` tells a place in it, the sizes where it tells of a limit, and what
/// it means with what to do about it.
///
/// `line` has its LF; with status 0 it doesn't matter. `source` has the bytes of the source, where there is one. An
/// error is want of memory.
pub fn explain_status(
    alloc: Global,
    status: u8,
    line: &[u8],
    source: Option<&[u8]>,
) -> Result<Vec<u8>, OutOfMemory>
    ensures { IfOk result (λ v. v.items ≡ said status line.now (option_map (λ s. s.now) source.entry)) }
{
    let mut out = Vec::new(alloc);
    if status == 0 {
        out.extend_from_slice(b"op2 would end with status 0\n")?;
    } else {
        put_explanation(&mut out, status, line, source)?;
    }
    Ok(out)
}

/// What an error means, without a program. An error is want of memory.
pub fn explain_text(alloc: Global, text: &[u8]) -> Result<Vec<u8>, OutOfMemory>
    ensures { IfOk result (λ v. v.items ≡ shown_text text.now) }
{
    let mut out = Vec::new(alloc);
    put_text(&mut out, text)?;
    Ok(out)
}

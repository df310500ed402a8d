// The lines of the tool's own refusals.

ghost use Rattle.std.specs.Prelude.{◌≡◌, ◌++◌, [], codes, OnOk, IfOk};
ghost use Rattle.std.specs.Fmt.{decimal};
ghost use Rattle.command_words.specs.Halts.{answer_of};
ghost use Rattle.command_words.specs.Reports.{Stands};
ghost use Rattle.tool_command.specs.ToolAnswers.{tool_line, refused_by_tool, words_refused, said_of_piece, said_of_metis};

use command_words::answer_lines::{Answer, put_named};
use mesh_draw::output_pieces::PieceRefusal;
use metis_text::owner_text::metis::MetisRefusal;
use op_num::{OutOfMemory, put_u64};
use op_outside::{Sink, write_all_of};
use std::alloc::Global;

// The line of words that are refused.
const USAGE_LINE: &[u8] = b"op2-tools: usage\n";

/// The answer to words that are refused. An error is want of memory.
pub fn refused_words(alloc: Global) -> Result<Answer, OutOfMemory>
    ensures { IfOk result (λ a. answer_of a ≡ words_refused) }
{
    Ok(Answer::Refused {
        status: 2,
        line: USAGE_LINE.to_vec(alloc)?,
    })
}

/// Writes the line of words that are refused to `err`, whole or a front of it where a write fails, and gives their
/// status.
pub fn report_usage<E: Sink>(err: &mut E) -> u8
    ensures status { result ≡ 2 }
    ensures said { Stands (E.faults err.old, E.faults err.new) (E.written err.old, E.written err.new) (tool_line (codes "usage")) }
{
    let _ = write_all_of(err, USAGE_LINE);
    2
}

/// The answer with this line, where what a job reads is refused.
pub fn refused_by(line: Vec<u8>) -> Answer
    ensures { answer_of result ≡ record { status = 20; out = []; line = line.items } }
{
    Answer::Refused { status: 20, line }
}

/// Appends words, and a number behind them. An error is want of memory.
pub fn put_at(out: &mut Vec<u8>, words: &[u8], number: u64) -> Result<(), OutOfMemory>
    ensures { OnOk result (out.new.items ≡ out.old.items ++ (words.now ++ decimal number)) }
{
    out.extend_from_slice(words)?;
    put_u64(out, number)
}

// What is said where there is no piece.
fn put_said(out: &mut Vec<u8>, file: &str, refusal: PieceRefusal) -> Result<(), OutOfMemory>
    ensures { OnOk result (out.new.items ≡ out.old.items ++ said_of_piece file.now refusal) }
{
    match refusal {
        PieceRefusal::NoPrint => put_named(out, b"pick 1 name ", file.as_bytes()),
        PieceRefusal::NoHeader { line } => put_at(out, b"pick 2 line ", line),
        PieceRefusal::FewRows { line } => put_at(out, b"pick 3 line ", line),
        PieceRefusal::OutOfMemory => Ok(()),
    }
}

/// The answer where there is no piece. An error is want of memory.
pub fn refused_piece(
    alloc: Global,
    file: &str,
    refusal: PieceRefusal,
) -> Result<Answer, OutOfMemory>
    ensures { IfOk result (λ a. answer_of a ≡ refused_by_tool (said_of_piece file.now refusal)) }
{
    let mut line = Vec::new(alloc);
    line.extend_from_slice(b"op2-tools: ")?;
    put_said(&mut line, file, refusal)?;
    line.extend_from_slice(b"\n")?;
    Ok(refused_by(line))
}

// What is said of the text of a partitioner that is refused.
fn put_metis(out: &mut Vec<u8>, refusal: MetisRefusal) -> Result<(), OutOfMemory>
    ensures { OnOk result (out.new.items ≡ out.old.items ++ said_of_metis refusal) }
{
    match refusal {
        MetisRefusal::NoRank { line } => put_at(out, b"owners 3 line ", line as u64),
        MetisRefusal::Many { line } => put_at(out, b"owners 4 line ", line as u64),
        MetisRefusal::Few { line } => put_at(out, b"owners 5 line ", line as u64),
        MetisRefusal::OutOfMemory => Ok(()),
    }
}

/// The answer where the text of a partitioner is refused. An error is want of memory.
pub fn refused_metis(alloc: Global, refusal: MetisRefusal) -> Result<Answer, OutOfMemory>
    ensures { IfOk result (λ a. answer_of a ≡ refused_by_tool (said_of_metis refusal)) }
{
    let mut line = Vec::new(alloc);
    line.extend_from_slice(b"op2-tools: ")?;
    put_metis(&mut line, refusal)?;
    line.extend_from_slice(b"\n")?;
    Ok(refused_by(line))
}

/// The answer where a name stands for nothing: `what` tells the job, the number and what was looked for, with a space
/// behind it. An error is want of memory.
pub fn refused_name(alloc: Global, what: &[u8], name: &[u8]) -> Result<Answer, OutOfMemory>
    ensures { IfOk result (λ a. answer_of a ≡ refused_by_tool (what.now ++ name.now)) }
{
    let mut line = Vec::new(alloc);
    line.extend_from_slice(b"op2-tools: ")?;
    put_named(&mut line, what, name)?;
    line.extend_from_slice(b"\n")?;
    Ok(refused_by(line))
}

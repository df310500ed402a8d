// The lines of `from-gmsh`'s refusals.

ghost use Rattle.std.specs.Prelude.{◌≡◌, ◌++◌, codes, drop, OnOk, IfOk};
ghost use Rattle.job_inputs.specs.Chains.{AnswersBy};
ghost use Rattle.command_words.specs.Halts.{answer_of};
ghost use Rattle.tool_command.specs.GmshLines.{said, said_of_text, said_of_mesh};
ghost use Rattle.tool_command.specs.ToolAnswers.{refused_by_tool, mesh_refused, source_refused};

use crate::lines::{put_at, refused_by};
use command_words::answer_lines::{Answer, Halt, Limit, Refusal};
use gmsh_mesh::GmshRefusal;
use gmsh_text::TextRefusal;
use op_num::OutOfMemory;
use std::alloc::Global;

// The number of a refusal and the line that it tells.
fn put_line(out: &mut Vec<u8>, number: u64, line: u32) -> Result<(), OutOfMemory>
    ensures { OnOk result (out.new.items ≡ out.old.items ++ said number line) }
{
    put_at(out, b"from-gmsh ", number)?;
    put_at(out, b" line ", line as u64)
}

// What is said of a text that is refused.
fn put_text(out: &mut Vec<u8>, refusal: TextRefusal) -> Result<(), OutOfMemory>
    ensures { OnOk result (out.new.items ≡ out.old.items ++ said_of_text refusal) }
{
    match refusal {
        TextRefusal::Header { line } => put_line(out, 1, line),
        TextRefusal::Version { line } => put_line(out, 2, line),
        TextRefusal::Binary { line } => put_line(out, 3, line),
        TextRefusal::Syntax { line } => put_line(out, 4, line),
        TextRefusal::NumberRange { line } => put_line(out, 5, line),
        TextRefusal::ElementType { line } => put_line(out, 6, line),
        TextRefusal::DuplicateEntity { line } => put_line(out, 7, line),
        TextRefusal::OutOfMemory => Ok(()),
    }
}

// What is said of a mesh that is refused.
fn put_mesh(out: &mut Vec<u8>, refusal: GmshRefusal) -> Result<(), OutOfMemory>
    ensures { OnOk result (out.new.items ≡ out.old.items ++ said_of_mesh refusal) }
{
    match refusal {
        GmshRefusal::Text { cause } => put_text(out, cause),
        GmshRefusal::NoCells => out.extend_from_slice(b"from-gmsh 8"),
        GmshRefusal::TwoTypes { line } => put_line(out, 9, line),
        GmshRefusal::DuplicateTag { line } => put_line(out, 10, line),
        GmshRefusal::UnknownTag { line } => put_line(out, 11, line),
        GmshRefusal::Coordinate { line, largest } => {
            put_line(out, 12, line)?;
            put_at(out, b" scale ", largest as u64)
        }
        GmshRefusal::NotPlane { line } => put_line(out, 13, line),
        GmshRefusal::ThirdCell { line } => put_line(out, 14, line),
        GmshRefusal::TwoGroups { line } => put_line(out, 15, line),
        GmshRefusal::Limit { .. } | GmshRefusal::Bytes { .. } | GmshRefusal::OutOfMemory => Ok(()),
    }
}

// The answer with the line of a mesh that is refused.
fn refused_line(alloc: Global, refusal: GmshRefusal) -> Result<Answer, OutOfMemory>
    ensures { IfOk result (λ a. answer_of a ≡ refused_by_tool (said_of_mesh refusal)) }
{
    let mut line = Vec::new(alloc);
    line.extend_from_slice(b"op2-tools: ")?;
    put_mesh(&mut line, refusal)?;
    line.extend_from_slice(b"\n")?;
    Ok(refused_by(line))
}

/// The answer where a Gmsh file gives no mesh. An error is a limit, with `op2`'s own line, or want of memory.
pub fn refused_mesh<'a>(alloc: Global, refusal: GmshRefusal) -> Result<Answer, Halt<'a>>
    ensures { AnswersBy (λ a. a ≡ mesh_refused refusal) result }
{
    match refusal {
        GmshRefusal::Limit { size } => Err(Halt::Refused(Refusal::BeyondLimit {
            limit: Limit::MeshValues,
            size,
        })),
        GmshRefusal::Bytes { size } => Err(Halt::Refused(Refusal::BeyondLimit {
            limit: Limit::MeshBytes,
            size,
        })),
        _ => Ok(refused_line(alloc, refusal)?),
    }
}

// The bytes behind the first five, `op2: `.
fn behind_name(line: &[u8]) -> &[u8]
    ensures { result.now ≡ drop 5 line.now }
{
    let end = line.len().min(5);
    &line[end..]
}

/// The answer where `op2` refuses a program for a mesh, with this line. An error is want of memory.
pub fn refused_source(alloc: Global, line: &[u8]) -> Result<Answer, OutOfMemory>
    ensures { IfOk result (λ a. answer_of a ≡ source_refused line.now) }
{
    let mut said = Vec::new(alloc);
    said.extend_from_slice(b"op2-tools: from-gmsh 16 ")?;
    said.extend_from_slice(behind_name(line))?;
    Ok(refused_by(said))
}

// The mesh of a Gmsh file, or a program for it.

ghost use Rattle.std.specs.Prelude.{◌≡◌, ◌<◌, ◌≤◌, [], ◌∷◌, length, option_map, IfOk};
ghost use Rattle.op_outside.specs.Outside.{Rose};
ghost use Rattle.mesh_decl.specs.declared.text.entry.TheConstants.{MESH_BYTES};
ghost use Rattle.command_words.specs.Halts.{answer_of};
ghost use Rattle.job_inputs.specs.Chains.{AnswersBy, AnswersOver};
ghost use Rattle.tool_command.specs.ToolAnswers.{GmshAnswers, ConversionAnswers, SourceAnswers, TextAnswers, source_answer, conversion_of};

use crate::gmsh_lines::{refused_mesh, refused_source};
use crate::judged::check_refusal;
use command_words::answer_lines::{Answer, Failure, Halt, Limit, done};
use gmsh_mesh::{Conversion, Dimension, GmshRefusal, from_gmsh};
use job_inputs::kept_files::some_files_are_as_seen;
use job_inputs::sole_file;
use op_num::OutOfMemory;
use op_outside::Shelf;
use std::alloc::Global;
use std::marker::Sync;
use std::thread::Threads;

// The bytes of a text.
fn bytes_of(alloc: Global, text: &str) -> Result<Vec<u8>, OutOfMemory>
    ensures { IfOk result (λ v. v.items ≡ text.now) }
{
    text.as_bytes().to_vec(alloc)
}

// The answer that is a program, or the one with the line by which `op2` refuses it.
fn answer_by(alloc: Global, source: &str, line: Option<Vec<u8>>) -> Result<Answer, OutOfMemory>
    ensures { IfOk result (λ a. answer_of a ≡ source_answer source.now (option_map (λ v. v.items) line)) }
{
    match line {
        None => done(alloc, source),
        Some(line) => refused_source(alloc, &line),
    }
}

// The answer that is a program for a mesh, where `op2` takes it over the mesh.
fn judged<R: Threads + Sync>(
    rt: &R,
    alloc: Global,
    source: &str,
    mesh: Vec<u8>,
) -> Result<Answer, OutOfMemory>
    ensures { IfOk result (λ a. SourceAnswers source.now mesh.items (answer_of a)) }
{
    let text = bytes_of(alloc, source)?;
    let line = check_refusal(rt, alloc, text, mesh)?;
    let answer = answer_by(alloc, source, line)?;
    Ok(answer)
}

// The answer that is the mesh text of a mesh, or a program for it.
fn written<'a, R: Threads + Sync>(
    rt: &R,
    alloc: Global,
    conversion: Conversion,
    writes_source: bool,
) -> Result<Answer, Halt<'a>>
    ensures { AnswersBy (TextAnswers writes_source (conversion_of conversion)) result }
{
    if writes_source {
        Ok(judged(rt, alloc, conversion.source, conversion.mesh)?)
    } else {
        Ok(Answer::Done(conversion.mesh))
    }
}

// The answer to the bytes of a file.
fn converted<'a, R: Threads + Sync>(
    rt: &R,
    alloc: Global,
    bytes: &[u8],
    dim: Option<Dimension>,
    scale: u32,
    writes_source: bool,
) -> Result<Answer, Halt<'a>>
    requires scale { 0 < scale }
    requires few { length bytes.now ≤ MESH_BYTES }
    ensures { AnswersBy (ConversionAnswers dim scale writes_source bytes.now) result }
{
    match from_gmsh(alloc, bytes, dim, scale) {
        Ok(conversion) => written(rt, alloc, conversion, writes_source),
        Err(GmshRefusal::OutOfMemory) => Err(Halt::Failed(Failure::OutOfMemory)),
        Err(refusal) => refused_mesh(alloc, refusal),
    }
}

/// The answer to the mesh in a Gmsh file: its mesh text, or a program for it. `rt` would start threads of `op2`, and
/// none is asked for.
pub fn from_gmsh_file<'a, R: Threads + Sync, F: Shelf>(
    rt: &R,
    alloc: Global,
    shelf: &mut F,
    file: &'a str,
    dim: Option<Dimension>,
    scale: u32,
    writes_source: bool,
) -> Result<Answer, Halt<'a>>
    requires lent { F.lends shelf.old file.now }
    requires scale { 0 < scale }
    ensures { AnswersOver (F.told shelf.old) (file.now ∷ []) (GmshAnswers file.now dim scale writes_source)
        (Rose (F.faults shelf.old) (F.faults shelf.new)) result }
{
    some_files_are_as_seen();
    let bytes = sole_file(alloc, shelf, file, Limit::MeshBytes)?;
    converted(rt, alloc, &bytes, dim, scale, writes_source)
}

// Pictures of a mesh on ranks.

ghost use Rattle.std.specs.Prelude.{◌≡◌, ◌+◌, ◌<◌, ◌^◌, ◌++◌, [], ◌∷◌, All, Some, option_map, length, OnOk, IfOk, IfSome};
ghost use Rattle.command_words.specs.Halts.{answer_of};
ghost use Rattle.op_outside.specs.Outside.{Rose};
ghost use Rattle.job_inputs.specs.Readings.{AreNext};
ghost use Rattle.bound_program.specs.Values.{bound_of};
ghost use Rattle.job_inputs.specs.Chains.{AnswersBy, AnswersFrom};
ghost use Rattle.job_inputs.specs.Plans.{planned_of};
ghost use Rattle.tool_words.specs.Values.{picture_of};
ghost use Rattle.tool_command.specs.ToolAnswers.{number_in, said_of_field, said_of_picture, refused_by_tool};
ghost use Rattle.tool_command.specs.ToolAnswers.{DrawAnswers, GridOver, GridAnswers};
ghost use Rattle.tool_command.specs.Endings.{output_names};

use crate::lines::{put_at, refused_by};
use cell_numbers::{Shown, ShownRefusal};
use command_words::answer_lines::{Answer, Failure, Halt, Limit, put_named};
use job_inputs::file_of;
use job_inputs::kept_files::Kept;
use loop_plan::planned_program::Planned;
use mesh_draw::fields::FieldRefusal;
use mesh_draw::shapes::ShapeRefusal;
use mesh_draw::{DrawRefusal, draw, vtk};
use op_num::OutOfMemory;
use op_outside::Shelf;
use std::alloc::Global;
use tool_words::Picture;

// The number of the rank or the loop that is shown.
fn number_in(shown: Shown) -> u32
    ensures { result ≡ number_in shown }
{
    match shown {
        Shown::Owners => 0,
        Shown::Halos { rank } => rank,
        Shown::Colours { site } => site,
    }
}

// What is said of a line of an output.
fn put_untold(out: &mut Vec<u8>, refusal: FieldRefusal) -> Result<(), OutOfMemory>
    ensures { OnOk result (out.new.items ≡ out.old.items ++ said_of_field refusal) }
{
    match refusal {
        FieldRefusal::NoHeader { line } => put_at(out, b" 10 line ", line),
        FieldRefusal::FewRows { line } => put_at(out, b" 11 line ", line),
        FieldRefusal::NotNumbers { line } => put_at(out, b" 12 line ", line),
        FieldRefusal::OutOfMemory => Ok(()),
    }
}

// What is said where there is no picture.
fn put_said(
    out: &mut Vec<u8>,
    picture: Picture<'_>,
    refusal: DrawRefusal,
) -> Result<(), OutOfMemory>
    ensures { OnOk result (out.new.items ≡ out.old.items ++ said_of_picture (picture_of picture.entry) refusal) }
{
    let (coords, cells) = (picture.coords.as_bytes(), picture.cells.as_bytes());
    let number = number_in(picture.shown) as u64;
    match refusal {
        DrawRefusal::Shape(ShapeRefusal::NoDat) => put_named(out, b" 1 name ", coords),
        DrawRefusal::Shape(ShapeRefusal::NoMap) => put_named(out, b" 2 name ", cells),
        DrawRefusal::Shape(ShapeRefusal::OtherSets) => put_named(out, b" 3 name ", cells),
        DrawRefusal::Shape(ShapeRefusal::Dims) => put_named(out, b" 4 name ", cells),
        DrawRefusal::NotPlane => put_named(out, b" 5 name ", coords),
        DrawRefusal::Shown(ShownRefusal::NoRank) => put_at(out, b" 6 rank ", number),
        DrawRefusal::Shown(ShownRefusal::NoLoop) => put_at(out, b" 7 loop ", number),
        DrawRefusal::Shown(ShownRefusal::OtherSet) => put_at(out, b" 8 loop ", number),
        DrawRefusal::ManyColours => put_at(out, b" 9 loop ", number),
        DrawRefusal::Fields(refusal) => put_untold(out, refusal),
        DrawRefusal::Shown(ShownRefusal::OutOfMemory) => Ok(()),
    }
}

// The answer where the job of this name has no picture. An error is want of memory.
fn refused_picture(
    alloc: Global,
    job: &[u8],
    picture: Picture<'_>,
    refusal: DrawRefusal,
) -> Result<Answer, OutOfMemory>
    ensures { IfOk result (λ a. answer_of a ≡ refused_by_tool (job.now ++ said_of_picture (picture_of picture.entry) refusal)) }
{
    let mut line = Vec::new(alloc);
    line.extend_from_slice(b"op2-tools: ")?;
    line.extend_from_slice(job)?;
    put_said(&mut line, picture, refusal)?;
    line.extend_from_slice(b"\n")?;
    Ok(refused_by(line))
}

/// The answer of drawing a picture.
pub fn drawn<'a>(
    alloc: Global,
    planned: &Planned<'_>,
    picture: Picture<'_>,
) -> Result<Answer, Halt<'a>>
    ensures { AnswersBy (DrawAnswers (picture_of picture.entry) (bound_of planned.now.bound) (planned_of planned.now)) result }
{
    let (coords, cells) = (picture.coords.as_bytes(), picture.cells.as_bytes());
    match draw(alloc, planned, coords, cells, picture.shown) {
        Ok(text) => Ok(Answer::Done(text)),
        Err(DrawRefusal::Shown(ShownRefusal::OutOfMemory)) => Err(Halt::Failed(
            Failure::OutOfMemory,
        )),
        Err(refusal) => Ok(refused_picture(alloc, b"draw", picture, refusal)?),
    }
}

// The answer of writing the grid for VTK, with what the bytes of an output say where there are some.
fn gridded_over<'a>(
    alloc: Global,
    planned: &Planned<'_>,
    picture: Picture<'_>,
    output: Option<&[u8]>,
) -> Result<Answer, Halt<'a>>
    requires output { IfSome output (λ bytes. length bytes.now + 1 < 2 ^ 32) }
    ensures { AnswersBy (GridOver (picture_of picture.entry) (bound_of planned.now.bound) (planned_of planned.now)
        (option_map (λ bytes. bytes.now) output.entry)) result }
{
    let (coords, cells) = (picture.coords.as_bytes(), picture.cells.as_bytes());
    match vtk(alloc, planned, coords, cells, picture.shown, output) {
        Ok(text) => Ok(Answer::Done(text)),
        Err(DrawRefusal::Shown(ShownRefusal::OutOfMemory)) => Err(Halt::Failed(
            Failure::OutOfMemory,
        )),
        Err(refusal) => Ok(refused_picture(alloc, b"vtk", picture, refusal)?),
    }
}

// The same with the output in a file, which is the next in `kept`.
fn gridded_from<'a, F: Shelf>(
    alloc: Global,
    shelf: &mut F,
    kept: &mut Kept<'a>,
    planned: &Planned<'_>,
    picture: Picture<'_>,
    output: &'a str,
) -> Result<Answer, Halt<'a>>
    requires lent { F.lends shelf.old output.now }
    requires next { AreNext (output.now ∷ []) kept.old }
    ensures { AnswersFrom (F.told shelf.old) kept.old
        (λ files. GridAnswers (picture_of picture.entry) (Some output.now) files (bound_of planned.now.bound) (planned_of planned.now))
        (Rose (F.faults shelf.old) (F.faults shelf.new)) result }
{
    let bytes = file_of(alloc, shelf, kept, output, Limit::PrintWeight)?;
    gridded_over(alloc, planned, picture, Some(&bytes))
}

/// The answer of writing the grid for VTK. The file of an output, where one is named, is the next in `kept`.
pub fn gridded<'a, F: Shelf>(
    alloc: Global,
    shelf: &mut F,
    kept: &mut Kept<'a>,
    planned: &Planned<'_>,
    picture: Picture<'_>,
    output: Option<&'a str>,
) -> Result<Answer, Halt<'a>>
    requires lent { All (λ name. F.lends shelf.old name) (output_names (option_map (λ s. s.now) output)) }
    requires next { AreNext (output_names (option_map (λ s. s.now) output)) kept.old }
    ensures { AnswersFrom (F.told shelf.old) kept.old
        (λ files. GridAnswers (picture_of picture.entry) (option_map (λ s. s.now) output.entry) files (bound_of planned.now.bound)
        (planned_of planned.now)) (Rose (F.faults shelf.old) (F.faults shelf.new)) result }
{
    match output {
        Some(output) => gridded_from(alloc, shelf, kept, planned, picture, output),
        None => gridded_over(alloc, planned, picture, None),
    }
}

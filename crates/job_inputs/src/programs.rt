// The program and the mesh that are asked for, bound.

ghost use Rattle.std.specs.Prelude.{◌≡◌, ◌≤◌, ◌↔◌, ℕ, All, List, [], ◌∷◌, length, Ok, Err, IfOk, IfErr, OnOk};
ghost use Rattle.op_outside.specs.Outside.{Files, Rose};
ghost use Rattle.job_inputs.specs.Readings.{AreNext, HaveCome, Finds};
ghost use Rattle.c_tree.specs.View.{program_of};
ghost use Rattle.mesh_decl.specs.declared.text.entry.TheConstants.{MESH_BYTES};
ghost use Rattle.bound_program.specs.Values as values;
ghost use Rattle.bound_program.specs.Fits.{Fits};
ghost use Rattle.run_model.specs.Ranges.{StartsInRange};
ghost use Rattle.command_words.specs.Lines.{refused};
ghost use Rattle.command_words.specs.Words.{InFiles, OfSample, names_from};
ghost use Rattle.answers.specs.Judgements.{AccessesAre};
ghost use Rattle.answers.specs.Answers.{BoundAnswers};
ghost use Rattle.command_words.specs.Values.{input_in};
ghost use Rattle.command_words.specs.Halts.{StopsWhere};
ghost use Rattle.job_inputs.specs.Inputs.{IsJudged, IsBoundOver, IsBoundIn, HasNarrowMaps};
ghost use Rattle.job_inputs.specs.Chains.{Never, TextOver, HaltsOver};

use crate::accesses::judge_accesses;
use crate::files::file_of;
use crate::kept_files::Kept;
use crate::meshes::{bound_of, entries_of};
use crate::sources::{tree_of, types_of};
use bound_program::Bound;
use c_tree::Program;
use command_words::answer_lines::{Failure, Halt, Limit};
use command_words::{Input, Side};
use kernel_model::types::Resolved;
use mesh_gen::{SampleRefusal, sample};
use op_outside::Shelf;
use par_exec::{Gate, Phase};
use std::alloc::Global;

/// A program, bound to the entries in the text of a mesh; its kernels keep to their accesses.
pub fn bound_over<'a>(
    alloc: Global,
    program: &Program,
    types: Resolved,
    text: &[u8],
) -> Result<Bound, Halt<'a>>
    requires judged { IsJudged (program_of program.now) types }
    requires text { length text.now ≤ MESH_BYTES }
    ensures ok { IfOk result (λ b. IsBoundOver (program_of program.now) types text.now (values.bound_of b)) }
    ensures obeyed { IfOk result (λ b. AccessesAre (values.bound_of b) (Ok tt)) }
    ensures fits { IfOk result (λ b. Fits (values.bound_of b)) }
    ensures narrow { IfOk result (λ b. HasNarrowMaps (values.bound_of b)) }
    ensures start { IfOk result (λ b. StartsInRange (values.bound_of b)) }
    ensures err { IfErr result (StopsWhere (λ r. TextOver Never (program_of program.now) types text.now (refused r))) }
{
    let entries = entries_of(alloc, text)?;
    let bound = bound_of(alloc, program, types, &entries)?;
    judge_accesses(alloc, &bound)?;
    Ok(bound)
}

// The program in the file `source`, bound to the mesh in the file `mesh`.
fn bound_files<'a, F: Shelf, G: Gate>(
    alloc: Global,
    shelf: &mut F,
    kept: &mut Kept<'a>,
    source: &'a str,
    mesh: &'a str,
    gate: &G,
) -> Result<Bound, Halt<'a>>
    requires source { F.lends shelf.old source.now }
    requires mesh { F.lends shelf.old mesh.now }
    requires next { AreNext (source.now ∷ mesh.now ∷ []) kept.old }
    ensures told { F.told shelf.new ≡ F.told shelf.old }
    ensures lends { (n : List ℕ) → F.lends shelf.old n ↔ F.lends shelf.new n }
    ensures calm { OnOk result (F.faults shelf.new ≡ F.faults shelf.old) }
    ensures come { OnOk result (HaveCome (source.now ∷ mesh.now ∷ []) kept.old kept.new) }
    ensures ok { IfOk result (λ b. Finds (F.told shelf.old) kept.old kept.new
        (IsBoundIn (InFiles source.now mesh.now) (values.bound_of b))) }
    ensures obeyed { IfOk result (λ b. AccessesAre (values.bound_of b) (Ok tt)) }
    ensures fits { IfOk result (λ b. Fits (values.bound_of b)) }
    ensures narrow { IfOk result (λ b. HasNarrowMaps (values.bound_of b)) }
    ensures start { IfOk result (λ b. StartsInRange (values.bound_of b)) }
    ensures err { IfErr result (HaltsOver (F.told shelf.old) kept.old
        (λ files r. BoundAnswers Never (InFiles source.now mesh.now) files (refused r)) (Rose (F.faults shelf.old) (F.faults shelf.new))) }
{
    let bytes = file_of(alloc, shelf, kept, source, Limit::SourceBytes)?;
    let program = tree_of(alloc, &bytes)?;
    let types = types_of(alloc, &program)?;
    let text = file_of(alloc, shelf, kept, mesh, Limit::MeshBytes)?;
    gate.phase(Phase::Read);
    bound_over(alloc, &program, types, &text)
}

// The sample on a square grid with so many cells a side, bound to its mesh.
fn bound_sample<'a>(alloc: Global, side: Side) -> Result<Bound, Halt<'a>>
    ensures ok { IfOk result (λ b. (files : Files) → IsBoundIn (OfSample side.cells) (values.bound_of b) files) }
    ensures obeyed { IfOk result (λ b. AccessesAre (values.bound_of b) (Ok tt)) }
    ensures fits { IfOk result (λ b. Fits (values.bound_of b)) }
    ensures narrow { IfOk result (λ b. HasNarrowMaps (values.bound_of b)) }
    ensures start { IfOk result (λ b. StartsInRange (values.bound_of b)) }
    ensures err { IfErr result (StopsWhere (λ r. (files : Files) → BoundAnswers Never (OfSample side.cells) files (refused r))) }
{
    let texts = match sample(alloc, side.cells) {
        Ok(texts) => texts,
        Err(SampleRefusal::OutOfMemory) => return Err(Halt::Failed(Failure::OutOfMemory)),
        Err(SampleRefusal::SizeRange) => unreachable!(),
    };
    let program = tree_of(alloc, &texts.source)?;
    let types = types_of(alloc, &program)?;
    bound_over(alloc, &program, types, &texts.mesh)
}

/// The program and the mesh that are asked for, bound; the program's kernels keep to their accesses. Where they come
/// from files, these are the next in `kept`.
///
/// Judged are, up to the first refusal, the source, its tree, its names and types, the mesh, its entries, their binding
/// and the accesses. A file that could not be read is a failure, where the shelf's count of faults rose, and so is want
/// of memory. The gate is told when the files have been read.
pub fn bound_input<'a, F: Shelf, G: Gate>(
    alloc: Global,
    shelf: &mut F,
    kept: &mut Kept<'a>,
    input: Input<'a>,
    gate: &G,
) -> Result<Bound, Halt<'a>>
    requires lent { All (λ name. F.lends shelf.old name) (names_from (input_in input)) }
    requires next { AreNext (names_from (input_in input)) kept.old }
    ensures told { F.told shelf.new ≡ F.told shelf.old }
    ensures lends { (n : List ℕ) → F.lends shelf.old n ↔ F.lends shelf.new n }
    ensures calm { OnOk result (F.faults shelf.new ≡ F.faults shelf.old) }
    ensures come { OnOk result (HaveCome (names_from (input_in input.entry)) kept.old kept.new) }
    ensures ok { IfOk result (λ b. Finds (F.told shelf.old) kept.old kept.new (IsBoundIn (input_in input.entry) (values.bound_of b))) }
    ensures obeyed { IfOk result (λ b. AccessesAre (values.bound_of b) (Ok tt)) }
    ensures fits { IfOk result (λ b. Fits (values.bound_of b)) }
    ensures narrow { IfOk result (λ b. HasNarrowMaps (values.bound_of b)) }
    ensures start { IfOk result (λ b. StartsInRange (values.bound_of b)) }
    ensures err { IfErr result (HaltsOver (F.told shelf.old) kept.old
        (λ files r. BoundAnswers Never (input_in input.entry) files (refused r)) (Rose (F.faults shelf.old) (F.faults shelf.new))) }
{
    match input {
        Input::InFiles { source, mesh } => bound_files(alloc, shelf, kept, source, mesh, gate),
        Input::OfSample { side } => bound_sample(alloc, side),
    }
}

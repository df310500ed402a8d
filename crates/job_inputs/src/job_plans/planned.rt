// The mesh on ranks, and the plan there.

ghost use Rattle.std.specs.Prelude.{◌≡◌, ◌≤◌, ◌↔◌, ◌++◌, ℕ, List, All, length, Ok, Err, IfOk, IfErr, OnOk};
ghost use Rattle.op_outside.specs.Outside.{Rose};
ghost use Rattle.job_inputs.specs.Readings.{AreNext, HaveCome, Finds};
ghost use Rattle.mesh_decl.specs.Owners.{AreOwners, ArePerms};
ghost use Rattle.bound_program.specs.Values.{bound_of};
ghost use Rattle.bound_program.specs.Fits.{Fits};
ghost use Rattle.command_words.specs.declared.answer_lines.limits.TheConstants.{PLAN_BYTES};
ghost use Rattle.command_words.specs.Lines.{refused};
ghost use Rattle.command_words.specs.Halts.{StopsWhere};
ghost use Rattle.command_words.specs.Words.{names_by, names_in_blocks};
ghost use Rattle.command_words.specs.Laws.{AreWithin, HaveFewPlaces};
ghost use Rattle.command_words.specs.Values.{options_in, blocks_in};
ghost use Rattle.answers.specs.Judgements.{PlanIs};
ghost use Rattle.answers.specs.Answers.{PlanningAnswers};
ghost use Rattle.job_inputs.specs.Inputs.{colouring_by};
ghost use Rattle.job_inputs.specs.Chains.{HaltsOver};
ghost use Rattle.job_inputs.specs.Plans.{planned_of, Unplanned, IsPlannedIn};

use crate::job_plans::colourings::plan_by;
use crate::kept_files::Kept;
use crate::{numbers_of, owners_of, partition_of, plan_text_of};
use bound_program::Bound;
use command_words::answer_lines::Halt;
use command_words::{Blocks, Options};
use loop_plan::planned_program::Planned;
use mesh_decl::{Owners, Perms};
use op_outside::Shelf;
use par_exec::{Gate, Phase};
use partition::distribute::distribute;
use std::alloc::Global;

// The blocks and colours that are asked for. Where a file tells them, `text` is what it holds.
#[derive(Drop)]
struct Colouring<'p> {
    blocks: Blocks<'p>,
    text: &'p [u8],
}

// The mesh by these owners and new numbers, and the plan there that is asked for. The gate is told of both.
fn plan_over<'a, 'b, G: Gate>(
    alloc: Global,
    bound: &'b Bound,
    owners: Owners,
    perms: Perms,
    asked: &Colouring<'_>,
    gate: &G,
) -> Result<Planned<'b>, Halt<'a>>
    requires fits { Fits (bound_of bound.now) }
    requires owners { AreOwners (bound_of bound.now).mesh owners }
    requires perms { ArePerms (bound_of bound.now).mesh perms }
    requires places { HaveFewPlaces (blocks_in asked.now.blocks) }
    requires few { length asked.now.text.now ≤ PLAN_BYTES }
    ensures ok { IfOk result (λ p.
        PlanIs (colouring_by (blocks_in asked.now.blocks) asked.now.text.now) (bound_of bound.now) owners perms (Ok (planned_of p))) }
    ensures of { IfOk result (λ p. p.bound ≡ bound.now) }
    ensures err { IfErr result (StopsWhere (λ r. PlanIs (colouring_by (blocks_in asked.now.blocks) asked.now.text.now) (bound_of bound.now)
        owners perms (Err r))) }
{
    let distribution = distribute(alloc, &bound.mesh, owners, perms)?;
    gate.phase(Phase::Distributed);
    let plan = plan_by(alloc, bound, &distribution, asked.blocks, asked.text)?;
    gate.phase(Phase::Planned);
    Ok(Planned {
        bound,
        distribution,
        plan,
    })
}

/// The mesh of a bound program on the ranks that the options ask for, and the plan there that they ask for: least
/// colours in blocks of their size, or those of a file. The program fits, and the numbers of the options are in range.
/// Where the options name the files of a partition and of a plan, these are the next in `kept`.
///
/// Judged are, up to the first refusal, new numbers, the partition's file, owners, the plan's file, and the plan. A
/// file that could not be read is a failure, where the shelf's count of faults rose, and so is want of memory. The gate
/// is told when the mesh has been distributed, and when the plan has been made.
pub fn planned_on<'a, 'b, F: Shelf, G: Gate>(
    alloc: Global,
    shelf: &mut F,
    kept: &mut Kept<'a>,
    options: &Options<'a>,
    bound: &'b Bound,
    gate: &G,
) -> Result<Planned<'b>, Halt<'a>>
    requires parting { All (λ name. F.lends shelf.old name) (names_by (options_in options.now).parting) }
    requires blocks { All (λ name. F.lends shelf.old name) (names_in_blocks (options_in options.now).blocks) }
    requires next { AreNext (names_by (options_in options.now).parting ++ names_in_blocks (options_in options.now).blocks) kept.old }
    requires within { AreWithin (options_in options.now) }
    requires fits { Fits (bound_of bound.now) }
    ensures told { F.told shelf.new ≡ F.told shelf.old }
    ensures lends { (n : List ℕ) → F.lends shelf.old n ↔ F.lends shelf.new n }
    ensures calm { OnOk result (F.faults shelf.new ≡ F.faults shelf.old) }
    ensures come { OnOk result
        (HaveCome (names_by (options_in options.now).parting ++ names_in_blocks (options_in options.now).blocks) kept.old kept.new) }
    ensures ok { IfOk result (λ p.
        Finds (F.told shelf.old) kept.old kept.new (IsPlannedIn (options_in options.now) (bound_of bound.now) (planned_of p))) }
    ensures of { IfOk result (λ p. p.bound ≡ bound.now) }
    ensures err { IfErr result (HaltsOver (F.told shelf.old) kept.old
        (λ files r. PlanningAnswers Unplanned (options_in options.now) files (bound_of bound.now) (refused r))
        (Rose (F.faults shelf.old) (F.faults shelf.new))) }
{
    let perms = numbers_of(alloc, options, bound)?;
    let partition = partition_of(alloc, shelf, kept, options.parting)?;
    let owners = owners_of(alloc, options.ranks, options.parting, bound, &partition)?;
    let text = plan_text_of(alloc, shelf, kept, options.blocks)?;
    let asked = Colouring {
        blocks: options.blocks,
        text: &text,
    };
    plan_over(alloc, bound, owners, perms, &asked, gate)
}

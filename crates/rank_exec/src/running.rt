// The run of a distributed program.

ghost use Rattle.std.specs.Prelude.{◌≡◌, ℕ, List, None, IfOk};
ghost use Rattle.run_model.specs.Dump.{AreHeld};
ghost use Rattle.schedule_steps.specs.Steps.{Accepted};
ghost use Rattle.run_model.specs.Programs.{run_of_program};
ghost use Rattle.run_model.specs.Ranges.{StartsInRange};
ghost use Rattle.bound_plan.specs.Memories.{dump_of};
ghost use Rattle.rank_state.specs.Stops.{stop_in};
ghost use Rattle.rank_exec.specs.Driving.{AsSequential, FitsPeak};
ghost use Rattle.rank_program.specs.Sound.{program_in, plan_in, layout_in, outline_in};
ghost use Rattle.rank_exec.specs.Runs.{IsRunBy, dump_in};

use crate::drive::drive;
use crate::run_room::RunRoom;
use crate::stream::Steps;
use op_num::OutOfMemory;
use par_exec::{Crew, Gate};
use rank_layout::{first_cells_stand, first_memories, first_variables};
use rank_machine::machine::Machine;
use rank_machine::start::start;
use rank_program::Runnable;
use rank_state::rank_memory::stop::Stop;
use run_model::gather::dump;
use schedule_steps::Peak;
use std::marker::Sync;
use std::thread::Threads;

/// What a run put out, and its first fault, where it has one.
#[derive(Debug, Drop)]
pub struct Outcome {
    pub out: Vec<u8>,
    pub stop: Option<Stop>,
}

// What a run puts out that left the machine so: where nothing stopped it, with the dump if it is asked for. An error is
// want of memory.
fn outcome_of(
    program: &Runnable<'_>,
    machine: Machine,
    stop: Option<Stop>,
    dumps: bool,
) -> Result<Outcome, OutOfMemory>
    requires ended { AsSequential (run_of_program (program_in program.now)) (stop_in stop) machine.output }
    requires held { stop ≡ None → AreHeld (program_in program.now).mesh program.now.meshes.now machine.memories }
    ensures { IfOk result (λ x. (dump : List ℕ) → (stop ≡ None → dump ≡ dump_in dumps program.now machine.memories)
        → IsRunBy (program_in program.now) dump x) }
{
    let (mut out, memories) = machine.into_parts();
    if dumps && stop.is_none() {
        let parts = program.parts();
        dump(&mut out, &parts.bound.mesh, parts.meshes, &memories)?;
    }
    Ok(Outcome { out, stop })
}

/// Runs a distributed program by steps that its plan accepts, with room for the peak of these steps, where the program
/// begins with numbers of 32 bits: the printed bytes and the first fault are those of running each loop one element
/// after another in its set's original order. Where `dumps` and no fault stops
/// the run, a dump of what the ranks hold after these steps stands behind the printed bytes.
///
/// Begins that come one after another are done in groups by the workers of `crew`, or on all ranks at once; its gate is
/// told of each begin of a group, or of each rank, just before it. The answer is the same for every crew.
///
/// # Errors
/// Want of memory alone.
pub fn run_planned<R: Threads + Sync, G: Gate + Sync, S: Steps>(
    crew: &Crew<'_, R, G>,
    program: &Runnable<'_>,
    peak: Peak,
    steps: &mut S,
    dumps: bool,
) -> Result<Outcome, OutOfMemory>
    requires start { StartsInRange (program_in program.now) }
    requires accepted { Accepted (outline_in program.now) (S.left steps.old) }
    requires peak { FitsPeak (layout_in program.now) peak.frames peak.mail (S.left steps.old) }
    ensures { IfOk result (IsRunBy (program_in program.now)
        (dump_of dumps (program_in program.now) program.now.owners.now program.now.meshes.now (plan_in program.now) (S.left steps.old))) }
{
    program.is_sound();
    first_cells_stand();
    bound_plan::setups_are_lawful();
    bound_plan::setups_are_coloured();
    bound_plan::plans_are_by_place();
    bound_plan::first_states_start();
    let spare = program.stride();
    let parts = program.parts();
    let memories = first_memories(crew.alloc, &parts.bound.mesh, parts.meshes, spare)?;
    let variables = first_variables(crew.alloc, &parts.bound.vars)?;
    let mut machine = start(
        crew.alloc,
        program,
        memories,
        variables,
        peak.frames as usize,
        peak.mail as usize,
    )?;
    let mut room = RunRoom::new(crew.alloc, program, crew.workers)?;
    let stop = drive(crew, &mut machine, program, &mut room, steps)?;
    let outcome = outcome_of(program, machine, stop, dumps)?;
    Ok(outcome)
}

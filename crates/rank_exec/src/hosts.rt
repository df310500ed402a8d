// Host statements: the statements of `main` that are no loop.

ghost use Rattle.std.specs.Prelude.{◌≡◌, ◌≢◌, ◌<◌, ◌*◌, ℕ, List, length, map, None, IfOk, OnOk};
ghost use Rattle.kernel_model.specs.declared.types.faults.KernelFault.{KernelFault};
ghost use Rattle.mesh_decl.specs.Mesh.{dat_count, dat_set, dat_dim, set_size};
ghost use Rattle.schedule_steps.specs.declared.step.Step.TheVariants.{Join};
ghost use Rattle.schedule_model.specs.Kept.{if_before};
ghost use Rattle.schedule_model.specs.Flat.{Flat, owned};
ghost use Rattle.bound_program.specs.Values.{Host as HostItem, Print, told_act_of};
ghost use Rattle.run_model.specs.Hosts.{dat_cells};
ghost use Rattle.run_model.specs.Programs.{item_at};
ghost use Rattle.rank_state.specs.Stops.{stop_in};
ghost use Rattle.rank_exec.specs.Driving.{IsPrint, ItsCells};
ghost use Rattle.rank_program.specs.Sound.{program_in, setup_in, layout_in};
ghost use Rattle.rank_machine.specs.Shown.{ShowsState, IsShowing, StepDone};
ghost use Rattle.rank_exec.specs.Taken.{StepEnds};

use crate::standing::standing_cells;
use bound_program::{Act, ToldAct};
use kernel_model::types::KernelFault;
use op_num::{OutOfMemory, Text};
use rank_machine::machine::Machine;
use rank_program::{Runnable, owners_copy};
use rank_state::rank_memory::stop::Stop;
use run_model::gather::host_acts::Variables;
use std::alloc::Global;

// Appends the values of an element of a dat, from its owner.
fn push_element(
    machine: &Machine,
    program: &Runnable<'_>,
    dat: u32,
    element: u32,
    values: &mut Vec<i32>,
) -> Result<(), OutOfMemory>
    requires dat { dat < dat_count (program_in program.now).mesh }
    requires element { element < set_size (program_in program.now).mesh (dat_set (program_in program.now).mesh dat) }
    requires shows { IsShowing program.now machine.now }
    ensures { OnOk result ((f : Flat KernelFault)
        → ShowsState program.now machine.now f
        → ItsCells (program_in program.now) dat element (owned (setup_in program.now) (layout_in program.now) f)
        values.old.items values.new.items) }
{
    program.is_sound();
    rank_state::owners_show::<KernelFault>();
    machine.push_owned(owners_copy(program, dat, element), values)
}

// The values of a dat, from the owners of its elements.
fn dat_values(
    alloc: Global,
    machine: &Machine,
    program: &Runnable<'_>,
    dat: u32,
) -> Result<Vec<i32>, OutOfMemory>
    requires dat { dat < dat_count (program_in program.now).mesh }
    requires shows { IsShowing program.now machine.now }
    ensures values { IfOk result
        (λ v. (f : Flat KernelFault) → ShowsState program.now machine.now f
        → v.items ≡ map (owned (setup_in program.now) (layout_in program.now) f) (dat_cells (program_in program.now) dat)) }
    ensures count { IfOk result (λ v. length v.items
        ≡ set_size (program_in program.now).mesh (dat_set (program_in program.now).mesh dat)
        * dat_dim (program_in program.now).mesh dat) }
{
    let mesh = &program.parts().bound.mesh;
    mesh.dat_count();
    let (set, _) = mesh.dat_shape(dat);
    let mut values = Vec::new(alloc);
    for element in 0..mesh.set_size(set) {
        push_element(machine, program, dat, element, &mut values)?;
    }
    Ok(values)
}

// Prints a dat.
fn run_print(
    alloc: Global,
    machine: &mut Machine,
    program: &Runnable<'_>,
    item: u32,
    dat: u32,
    file: &Text,
) -> Result<(), OutOfMemory>
    requires is { IsPrint (program_in program.now) item dat file.now }
    requires shows { IsShowing program.now machine.old }
    requires going { if_before item machine.old.fault ≡ None }
    ensures after { OnOk result (StepDone program.now (Join item) machine.old machine.new) }
    ensures mail { machine.new.mail.left ≡ machine.old.mail.left }
    ensures frames { machine.new.frames.left ≡ machine.old.frames.left }
{
    program.is_sound();
    rank_state::join_shows::<KernelFault>();
    rank_state::owners_show::<KernelFault>();
    run_model::items_are_there();
    let mesh = &program.parts().bound.mesh;
    if let Some(cells) = standing_cells(program, dat) {
        return machine.print_owned(file, mesh, dat, cells);
    }
    let values = dat_values(alloc, machine, program, dat)?;
    machine.print(file, mesh, dat, &values)
}

// A statement that prints no dat.
fn run_plain(
    alloc: Global,
    machine: &mut Machine,
    program: &Runnable<'_>,
    item: u32,
    act: &ToldAct,
) -> Result<Option<Stop>, OutOfMemory>
    requires is { item_at (program_in program.now) item ≡ HostItem (told_act_of act.now) }
    requires plain { (d : ℕ) (file : List ℕ) → told_act_of act.now ≢ Print d file }
    requires shows { IsShowing program.now machine.old }
    requires going { if_before item machine.old.fault ≡ None }
    ensures after { IfOk result
        (λ stop. StepEnds program.now (Join item) (stop_in stop) machine.old machine.new) }
    ensures mail { machine.new.mail.left ≡ machine.old.mail.left }
    ensures frames { machine.new.frames.left ≡ machine.old.frames.left }
{
    program.is_sound();
    rank_state::join_shows::<KernelFault>();
    rank_state::owners_show::<KernelFault>();
    run_model::gather::host_acts::variables_hold();
    run_model::items_are_there();
    let bound = program.parts().bound;
    let known = Variables {
        vars: &bound.vars,
        starts: program.starts(),
    };
    match machine.act(alloc, &known, act)? {
        Ok(()) => Ok(None),
        Err(fault) => Ok(Some(Stop {
            item,
            element: None,
            fault,
        })),
    }
}

/// A host statement, where no fault of an earlier item is kept.
pub fn run_host(
    alloc: Global,
    machine: &mut Machine,
    program: &Runnable<'_>,
    item: u32,
    act: &ToldAct,
) -> Result<Option<Stop>, OutOfMemory>
    requires is { item_at (program_in program.now) item ≡ HostItem (told_act_of act.now) }
    requires shows { IsShowing program.now machine.old }
    requires going { if_before item machine.old.fault ≡ None }
    ensures after { IfOk result
        (λ stop. StepEnds program.now (Join item) (stop_in stop) machine.old machine.new) }
    ensures mail { machine.new.mail.left ≡ machine.old.mail.left }
    ensures frames { machine.new.frames.left ≡ machine.old.frames.left }
{
    match &*act.act {
        Act::Print { dat, file } => {
            run_print(alloc, machine, program, item, *dat, file)?;
            Ok(None)
        }
        _ => run_plain(alloc, machine, program, item, act),
    }
}

// Items, one after another.

ghost use Rattle.std.specs.Prelude.{◌≡◌, ◌<◌, ◌≤◌, ◌+◌, IfOk, length, false};
ghost use Rattle.kernel_model.specs.declared.types.faults.KernelFault.{KernelFault as Fault};
ghost use Rattle.schedule_model.specs.Program.{is_free, Free, Reduce};
ghost use Rattle.bound_program.specs.Values as bound;
ghost use Rattle.run_model.specs.Programs.{item_at, kind_of};
ghost use Rattle.chain_model.specs.Machine.{ChainState, item_run, reduced, chain_start, chain_machine};
ghost use Rattle.chain_model.specs.Slices.{slicing_of};
ghost use Rattle.deep_halo.specs.Programs.{IsProgram, IsRoom, program_of_run, owners_of_run};
ghost use Rattle.deep_halo.specs.Stands.{Stands, Ends};

use crate::chain_memory::loop_of;
use crate::chain_ranks::chain_elements::read_constants;
use crate::chain_ranks::{ChainLoop, put_units, reduce_all, run_ranks};
use crate::hosts::run_host;
use crate::orders::run_ordered;
use crate::programs::Program;
use crate::state::State;
use crate::supply::begin_chain;
use bound_program::Item;
use kernel_model::types::KernelFault;
use op_num::OutOfMemory;
use rank_state::rank_memory::stop::Stop;
use std::alloc::Global;

// A Free loop, behind the exchange where a chain begins there.
fn run_free(
    state: &mut State,
    program: &Program<'_>,
    item: u32,
    site: u32,
    values: &mut [i32],
    saved: &mut [i32],
    locals: &mut [i32],
)
    requires is { IsProgram program.now }
    requires item { item < length (program_of_run program.now).trace }
    requires site { item_at (program_of_run program.now) item ≡ bound.Free site }
    requires room { IsRoom program.now values.old saved.old locals.old }
    requires stands { (st : ChainState Fault) × Stands (program_of_run program.now) (owners_of_run program.now) item state.old st }
    ensures runs { (st : ChainState Fault) → Stands (program_of_run program.now) (owners_of_run program.now) item state.old st
        → Stands (program_of_run program.now) (owners_of_run program.now) (item + 1) state.new
        (item_run (slicing_of (program_of_run program.now) (owners_of_run program.now)) item Free st) }
{
    run_model::items_are_there();
    run_model::constants_are_read();
    let begun = begin_chain(&mut state.memory, program, state.begun, item);
    state.begun = Some(begun);
    let all = loop_of(program.blocks, site);
    put_units(&mut state.partials, program.blocks, &all);
    read_constants(&state.memory, program.blocks, values);
    let work = ChainLoop {
        blocks: program.blocks,
        slices: program.slices,
        all: &all,
        item,
        begun,
        values,
    };
    run_ranks(
        &mut state.memory,
        &mut state.partials,
        &mut state.fault,
        &work,
        saved,
        locals,
    );
}

// The partials of a loop go into the variables.
fn run_reduce(state: &mut State, program: &Program<'_>, item: u32, site: u32)
    requires is { IsProgram program.now }
    requires item { item < length (program_of_run program.now).trace }
    requires site { item_at (program_of_run program.now) item ≡ bound.Reduce site }
    requires stands { (st : ChainState Fault) × Stands (program_of_run program.now) (owners_of_run program.now) item state.old st }
    ensures { (st : ChainState Fault) → Stands (program_of_run program.now) (owners_of_run program.now) item state.old st
        → Stands (program_of_run program.now) (owners_of_run program.now) (item + 1) state.new
        (reduced (slicing_of (program_of_run program.now) (owners_of_run program.now)) item st) }
{
    run_model::items_are_there();
    let all = loop_of(program.blocks, site);
    reduce_all(&mut state.memory, &state.partials, program.blocks, &all);
}

// An item that isn't Free. It stops by the least fault that is recorded, if there is one.
fn join(
    alloc: Global,
    state: &mut State,
    program: &Program<'_>,
    item: u32,
    values: &mut [i32],
    saved: &mut [i32],
    locals: &mut [i32],
) -> Result<Option<Stop>, OutOfMemory>
    requires is { IsProgram program.now }
    requires item { item < length (program_of_run program.now).trace }
    requires kind { is_free (kind_of (item_at (program_of_run program.now) item)) ≡ false }
    requires room { IsRoom program.now values.old saved.old locals.old }
    requires stands { (st : ChainState Fault) × Stands (program_of_run program.now) (owners_of_run program.now) item state.old st }
    ensures ends { IfOk result (λ stop. (st : ChainState Fault)
        → Stands (program_of_run program.now) (owners_of_run program.now) item state.old st
        → Ends (program_of_run program.now) (owners_of_run program.now) (item + 1) state.new stop
        (item_run (slicing_of (program_of_run program.now) (owners_of_run program.now)) item
        (kind_of (item_at (program_of_run program.now) item)) st)) }
{
    run_model::items_are_there();
    schedule_model::one_fault_is_enough::<KernelFault>();
    program.blocks.bound.mesh.is_in_range();
    if state.fault.is_some() {
        return Ok(state.fault);
    }
    match &program.blocks.bound.trace[item as usize] {
        Item::Reduce { site } => {
            run_reduce(state, program, item, *site);
            Ok(None)
        }
        Item::Ordered { site } => {
            let all = loop_of(program.blocks, *site);
            Ok(run_ordered(
                &mut state.memory,
                program,
                &all,
                item,
                values,
                saved,
                locals,
            ))
        }
        Item::Host { act } => {
            match run_host(alloc, &mut state.memory, program, act, &mut state.out)? {
                Ok(()) => Ok(None),
                Err(fault) => Ok(Some(Stop {
                    item,
                    element: None,
                    fault,
                })),
            }
        }
        Item::Free { .. } => unreachable!(),
    }
}

// An item.
fn run_item(
    alloc: Global,
    state: &mut State,
    program: &Program<'_>,
    item: u32,
    values: &mut [i32],
    saved: &mut [i32],
    locals: &mut [i32],
) -> Result<Option<Stop>, OutOfMemory>
    requires is { IsProgram program.now }
    requires item { item < length (program_of_run program.now).trace }
    requires room { IsRoom program.now values.old saved.old locals.old }
    requires stands { (st : ChainState Fault) × Stands (program_of_run program.now) (owners_of_run program.now) item state.old st }
    ensures ends { IfOk result (λ stop. (st : ChainState Fault)
        → Stands (program_of_run program.now) (owners_of_run program.now) item state.old st
        → Ends (program_of_run program.now) (owners_of_run program.now) (item + 1) state.new stop
        (item_run (slicing_of (program_of_run program.now) (owners_of_run program.now)) item
        (kind_of (item_at (program_of_run program.now) item)) st)) }
{
    if let Item::Free { site } = program.blocks.bound.trace[item as usize] {
        run_free(state, program, item, site, values, saved, locals);
        return Ok(None);
    }
    join(alloc, state, program, item, values, saved, locals)
}

/// The items one after another, up to the one that stops.
///
/// # Errors
/// Want of memory alone.
pub fn run_items(
    alloc: Global,
    state: &mut State,
    program: &Program<'_>,
    values: &mut [i32],
    saved: &mut [i32],
    locals: &mut [i32],
) -> Result<Option<Stop>, OutOfMemory>
    requires is { IsProgram program.now }
    requires room { IsRoom program.now values.old saved.old locals.old }
    requires stands { Stands (program_of_run program.now) (owners_of_run program.now) 0 state.old
        (chain_start (slicing_of (program_of_run program.now) (owners_of_run program.now))) }
    ensures { IfOk result (λ stop. Ends (program_of_run program.now) (owners_of_run program.now)
        (length (program_of_run program.now).trace) state.new stop
        (chain_machine (slicing_of (program_of_run program.now) (owners_of_run program.now)))) }
{
    for item in 0..program.blocks.bound.trace.len() {
        if let Some(stop) = run_item(alloc, state, program, item as u32, values, saved, locals)? {
            return Ok(Some(stop));
        }
    }
    Ok(None)
}

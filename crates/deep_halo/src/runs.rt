// A program is run by chains.

ghost use Rattle.std.specs.Prelude.{◌≡◌, IfOk, length};
ghost use Rattle.mesh_decl.specs.Owners.{AreOwners};
ghost use Rattle.bound_program.specs.Values.{bound_of};
ghost use Rattle.bound_program.specs.Fits.{Fits};
ghost use Rattle.run_model.specs.Kernels as kernels;
ghost use Rattle.chain_model.specs.Machine.{chain_start};
ghost use Rattle.chain_model.specs.Laws.{Chainable};
ghost use Rattle.chain_model.specs.Slices.{slicing_of};
ghost use Rattle.chain_needs.specs.Slices.{AreSlices};
ghost use Rattle.deep_halo.specs.Sound.{ranks_in};
ghost use Rattle.deep_halo.specs.Cells.{BlocksHold, first_in_last};
ghost use Rattle.rank_state.specs.Stops as kept;
ghost use Rattle.deep_halo.specs.Programs.{IsProgram, IsRoom, program_of_run, owners_of_run};
ghost use Rattle.deep_halo.specs.Stands.{Stands};
ghost use Rattle.deep_halo.specs.Runs.{IsRun, PrintsTheProgram, stop_in};

use crate::chain_memory::chain_stores::{first_cells, start_owners};
use crate::chain_memory::{Blocks, MOST_SAVED, first_block, layout_of};
use crate::dumps::put_stores;
use crate::items::run_items;
use crate::programs::Program;
use crate::state::State;
use bound_program::Bound;
use chain_needs::chain_slices::Slices;
use kernel_code::{Code, compile_all, room_for};
use kernel_model::types::KernelFault;
use mesh_decl::Owners;
use op_num::OutOfMemory;
use rank_state::rank_memory::stop::Stop;
use std::alloc::{AllocError, Global};

/// Where a run by chains stopped, and by which fault. A host statement has no element; `element` is an original number.
#[derive(Clone, Copy, PartialEq, Eq, Debug)]
pub struct ChainStop {
    pub item: u32,
    pub element: Option<u32>,
    pub fault: KernelFault,
}

/// What a run by chains printed, with the dump behind it where it has one, and where it stopped, if a fault stopped it.
#[derive(Debug, Drop)]
pub struct ChainOutcome {
    pub out: Vec<u8>,
    pub stop: Option<ChainStop>,
}

// A stop as it is told.
fn told(stop: Option<Stop>) -> Option<ChainStop>
    ensures { stop_in result ≡ kept.stop_in stop }
{
    match stop {
        Some(stop) => Some(ChainStop {
            item: stop.item,
            element: stop.element,
            fault: stop.fault,
        }),
        None => None,
    }
}

// The state before the first item.
fn first_state(alloc: Global, program: &Program<'_>, memory: Vec<i32>) -> Result<State, OutOfMemory>
    requires is { IsProgram program.now }
    requires holds { BlocksHold (program_of_run program.now) (ranks_in program.now.blocks.now) memory.items
        (first_in_last (program_of_run program.now) (ranks_in program.now.blocks.now)) }
    ensures { IfOk result (λ state. Stands (program_of_run program.now) (owners_of_run program.now) 0 state
        (chain_start (slicing_of (program_of_run program.now) (owners_of_run program.now)))) }
{
    let mut memory = memory;
    start_owners(&mut memory, program.blocks);
    let width = program.blocks.layout.cells - program.blocks.layout.dats_end;
    let count = width
        .checked_mul(program.blocks.owners.ranks as usize + 1)
        .ok_or(AllocError)?;
    Ok(State {
        memory,
        partials: vec![in alloc; 0; count]?,
        fault: None,
        begun: None,
        out: Vec::new(alloc),
    })
}

// Runs a program whose blocks stand, with the dump behind it where it is asked for.
fn run_program(
    alloc: Global,
    program: &Program<'_>,
    memory: Vec<i32>,
    constants: usize,
    dump: bool,
) -> Result<ChainOutcome, OutOfMemory>
    requires is { IsProgram program.now }
    requires constants { constants ≡ length (kernels.constants (program_of_run program.now)) }
    requires holds { BlocksHold (program_of_run program.now) (ranks_in program.now.blocks.now) memory.items
        (first_in_last (program_of_run program.now) (ranks_in program.now.blocks.now)) }
    ensures { IfOk result (IsRun (program_of_run program.now) (owners_of_run program.now) dump) }
{
    let mut values = vec![in alloc; 0; constants]?;
    let mut saved = vec![in alloc; 0; MOST_SAVED]?;
    let mut locals = vec![in alloc; 0; room_for(program.blocks.codes)]?;
    let mut state = first_state(alloc, program, memory)?;
    let stop = run_items(
        alloc,
        &mut state,
        program,
        &mut values,
        &mut saved,
        &mut locals,
    )?;
    if dump && stop.is_none() {
        put_stores(&mut state.out, &state.memory, program, state.begun)?;
    }
    Ok(ChainOutcome {
        out: state.out,
        stop: told(stop),
    })
}

// How many cells the constants have that kernels read.
fn constant_count(bound: &Bound) -> Result<usize, OutOfMemory>
    ensures { IfOk result (λ n. n ≡ length (kernels.constants (bound_of bound.now))) }
{
    let mut count: usize = 0;
    for var in &bound.vars {
        if var.constant.is_some() {
            count = count
                .checked_add(var.start.as_slice().len())
                .ok_or(AllocError)?;
        }
    }
    Ok(count)
}

/// Runs a program on the ranks of `owners`, each chain with one exchange at its start: the machine of chains, also
/// where kernels don't obey their modes. Where they do, it prints what the program prints in sequence, and stops at its
/// first fault. With `dump` the stores of all ranks stand behind that where nothing stops the run. `slices` are those
/// of this program and these owners.
///
/// # Errors
/// Want of memory alone.
pub fn run_chains(
    alloc: Global,
    bound: &Bound,
    owners: &Owners,
    slices: &Slices,
    dump: bool,
) -> Result<ChainOutcome, OutOfMemory>
    requires fits { Fits (bound_of bound.now) }
    requires owners { AreOwners (bound_of bound.now).mesh owners.now }
    requires slices { AreSlices (bound_of bound.now) owners.now slices.now }
    ensures machine { IfOk result (IsRun (bound_of bound.now) owners.now dump) }
    ensures sequential { Chainable (bound_of bound.now) owners.now → IfOk result (PrintsTheProgram (bound_of bound.now) owners.now dump) }
{
    chain_model::bound_chains::chains_run_as_sequential();
    bound.mesh.is_in_range();
    let codes: Vec<Code<'_>> = compile_all(alloc, &bound.kernels)?;
    let first = first_block(alloc, bound)?;
    let layout = layout_of(alloc, bound, first.len())?;
    let memory = first_cells(alloc, owners.ranks, &first)?;
    let constants = constant_count(bound)?;
    let blocks = Blocks {
        bound,
        owners,
        codes: &codes,
        layout: &layout,
    };
    let program = Program {
        blocks: &blocks,
        slices,
    };
    run_program(alloc, &program, memory, constants, dump)
}

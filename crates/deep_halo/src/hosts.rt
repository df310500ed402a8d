// Host statements.

ghost use Rattle.std.specs.Prelude.{◌≡◌, ◌<◌, ◌*◌, ◌++◌, IfOk, OnOk, length, map};
ghost use Rattle.mesh_decl.specs.Mesh.{dat_count, dat_set, dat_dim, set_size};
ghost use Rattle.mesh_decl.specs.Printed.{printed_dat};
ghost use Rattle.schedule_model.specs.Cells.{Store};
ghost use Rattle.bound_program.specs.Values.{told_act_of};
ghost use Rattle.bound_program.specs.Fits.{ActFits};
ghost use Rattle.run_model.specs.Hosts.{dat_cells, act_run};
ghost use Rattle.deep_halo.specs.Places.{all_cells};
ghost use Rattle.deep_halo.specs.Sound.{ranks_in};
ghost use Rattle.deep_halo.specs.Programs.{IsProgram, program_of_run, owners_of_run};
ghost use Rattle.deep_halo.specs.Orders.{OwnersStand};
ghost use Rattle.deep_halo.specs.Hosts.{HostEnds};

use crate::chain_memory::{owner_of, pair_at};
use crate::programs::Program;
use bound_program::{Act, ToldAct};
use kernel_model::types::KernelFault;
use op_num::{OutOfMemory, Text};
use run_model::gather::host_acts::{Variables, run_act};
use run_model::gather::print_dat;
use std::alloc::Global;

// The values of a dat, from the owners of its elements.
fn dat_values(
    alloc: Global,
    memory: &[i32],
    program: &Program<'_>,
    dat: u32,
) -> Result<Vec<i32>, OutOfMemory>
    requires is { IsProgram program.now }
    requires memory { length memory.now ≡ all_cells (program_of_run program.now) (ranks_in program.now.blocks.now) }
    requires dat { dat < dat_count (program_of_run program.now).mesh }
    ensures count { IfOk result (λ v. length v.items ≡ set_size (program_of_run program.now).mesh
        (dat_set (program_of_run program.now).mesh dat) * dat_dim (program_of_run program.now).mesh dat) }
    ensures values { IfOk result (λ v. (s : Store) → OwnersStand (program_of_run program.now) (owners_of_run program.now) memory.now s
        → v.items ≡ map s (dat_cells (program_of_run program.now) dat)) }
{
    program.blocks.bound.mesh.is_in_range();
    let (set, dim) = program.blocks.bound.mesh.dat_shape(dat);
    let mut values = Vec::new(alloc);
    for element in 0..program.blocks.bound.mesh.set_size(set) {
        let owner = owner_of(program.blocks, dat, element);
        let from = pair_at(program.blocks, owner, dat, element);
        values.extend_from_slice(&memory[from..from + dim as usize])?;
    }
    Ok(values)
}

// Prints a dat.
fn run_print(
    alloc: Global,
    memory: &[i32],
    program: &Program<'_>,
    dat: u32,
    file: &Text,
    out: &mut Vec<u8>,
) -> Result<(), OutOfMemory>
    requires is { IsProgram program.now }
    requires memory { length memory.now ≡ all_cells (program_of_run program.now) (ranks_in program.now.blocks.now) }
    requires dat { dat < dat_count (program_of_run program.now).mesh }
    ensures { OnOk result ((s : Store) → OwnersStand (program_of_run program.now) (owners_of_run program.now) memory.now s
        → out.new.items ≡ out.old.items ++ printed_dat file.now (program_of_run program.now).mesh dat
        (map s (dat_cells (program_of_run program.now) dat))) }
{
    let values = dat_values(alloc, memory, program, dat)?;
    print_dat(out, file, &program.blocks.bound.mesh, dat, &values)
}

/// Does what a statement does, on the owners' pairs and the variables, up to its first fault.
///
/// # Errors
/// Want of memory alone; a fault is in the answer.
pub fn run_host(
    alloc: Global,
    memory: &mut [i32],
    program: &Program<'_>,
    act: &ToldAct,
    out: &mut Vec<u8>,
) -> Result<Result<(), KernelFault>, OutOfMemory>
    requires is { IsProgram program.now }
    requires memory { length memory.old ≡ all_cells (program_of_run program.now) (ranks_in program.now.blocks.now) }
    requires fits { ActFits (program_of_run program.now) (told_act_of act.now) }
    ensures { IfOk result (λ r. (s : Store) → OwnersStand (program_of_run program.now) (owners_of_run program.now) memory.old s
        → HostEnds (program_of_run program.now) (owners_of_run program.now) memory.old memory.new out.old.items out.new.items r
        (act_run (program_of_run program.now) s (told_act_of act.now))) }
{
    if let Act::Print { dat, file } = &*act.act {
        run_print(alloc, memory, program, *dat, file, out)?;
        return Ok(Ok(()));
    }
    let known = Variables {
        vars: &program.blocks.bound.vars,
        starts: &program.blocks.layout.vars,
    };
    let layout = program.blocks.layout;
    let first = layout.cells * program.blocks.owners.ranks as usize + layout.dats_end;
    run_act(alloc, &known, act, &mut memory[first..], out)
}

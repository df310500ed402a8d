// The dump of the ranks' stores.

ghost use Rattle.std.specs.Prelude.{◌≡◌, ◌<◌, ◌++◌, [], ℕ, OnOk, cond, is_some, length, codes};
ghost use Rattle.std.specs.List.{flat_map};
ghost use Rattle.std.specs.Fmt.{decimal};
ghost use Rattle.kernel_model.specs.declared.types.faults.KernelFault.{KernelFault as Fault};
ghost use Rattle.mesh_decl.specs.Mesh.{dat_count, dat_set, dat_name, set_size};
ghost use Rattle.run_model.specs.Dump.{copy_text};
ghost use Rattle.chain_model.specs.Machine.{ChainState, Holding};
ghost use Rattle.chain_model.specs.Dump.{held_in, pair_text, held_text, store_text, stores_text};
ghost use Rattle.deep_halo.specs.Places.{all_cells};
ghost use Rattle.deep_halo.specs.Sound.{ranks_in};
ghost use Rattle.deep_halo.specs.Running.{StoresStand};
ghost use Rattle.deep_halo.specs.Programs.{IsProgram, IsHolding, HasBegun, held_since, program_of_run, owners_of_run};

use crate::chain_memory::{owner_of, pair_at};
use crate::programs::Program;
use op_num::{OutOfMemory, put_i32, put_u64};

// Whether a rank holds a pair.
fn is_held(program: &Program<'_>, begun: Option<u32>, rank: u32, dat: u32, element: u32) -> bool
    requires is { IsProgram program.now }
    requires begun { HasBegun (program_of_run program.now) (owners_of_run program.now) begun }
    requires rank { rank < ranks_in program.now.blocks.now }
    requires dat { dat < dat_count (program_of_run program.now).mesh }
    requires element { element < set_size (program_of_run program.now).mesh (dat_set (program_of_run program.now).mesh dat) }
    ensures { result ≡ held_since (program_of_run program.now) (owners_of_run program.now) begun rank dat element }
{
    match begun {
        Some(item) => program.slices.needs(item, rank, dat, element),
        None => owner_of(program.blocks, dat, element) == rank,
    }
}

// A pair: its element's number and its values.
fn put_pair(out: &mut Vec<u8>, element: u32, values: &[i32]) -> Result<(), OutOfMemory>
    ensures { OnOk result (out.new.items ≡ out.old.items ++ copy_text element values.now) }
{
    put_u64(out, element as u64)?;
    for value in values {
        out.push(b' ')?;
        put_i32(out, *value)?;
    }
    out.push(b'\n')?;
    Ok(())
}

// How many pairs of a dat a rank holds.
fn held_count(program: &Program<'_>, begun: Option<u32>, rank: u32, dat: u32) -> u64
    requires is { IsProgram program.now }
    requires begun { HasBegun (program_of_run program.now) (owners_of_run program.now) begun }
    requires rank { rank < ranks_in program.now.blocks.now }
    requires dat { dat < dat_count (program_of_run program.now).mesh }
    ensures { (h : Holding) → IsHolding (program_of_run program.now) (owners_of_run program.now) begun rank h
        → result ≡ length (held_in (program_of_run program.now).mesh h dat) }
{
    program.blocks.bound.mesh.is_in_range();
    let (set, _) = program.blocks.bound.mesh.dat_shape(dat);
    let mut count = 0;
    for element in 0..program.blocks.bound.mesh.set_size(set) {
        if is_held(program, begun, rank, dat, element) {
            count += 1;
        }
    }
    count
}

// `rank R D COUNT`.
fn put_header(
    out: &mut Vec<u8>,
    program: &Program<'_>,
    begun: Option<u32>,
    rank: u32,
    dat: u32,
) -> Result<(), OutOfMemory>
    requires is { IsProgram program.now }
    requires begun { HasBegun (program_of_run program.now) (owners_of_run program.now) begun }
    requires rank { rank < ranks_in program.now.blocks.now }
    requires dat { dat < dat_count (program_of_run program.now).mesh }
    ensures { OnOk result ((h : Holding) → IsHolding (program_of_run program.now) (owners_of_run program.now) begun rank h
        → out.new.items ≡ out.old.items ++ (codes "rank " ++ decimal rank ++ codes " " ++ dat_name (program_of_run program.now).mesh dat
        ++ codes " " ++ decimal (length (held_in (program_of_run program.now).mesh h dat)) ++ codes "\n")) }
{
    out.extend_from_slice(b"rank ")?;
    put_u64(out, rank as u64)?;
    out.push(b' ')?;
    out.extend_from_slice(program.blocks.bound.mesh.dat_name(dat).bytes())?;
    out.push(b' ')?;
    put_u64(out, held_count(program, begun, rank, dat))?;
    out.push(b'\n')?;
    Ok(())
}

// A pair, where a rank holds it.
fn put_held(
    out: &mut Vec<u8>,
    memory: &[i32],
    program: &Program<'_>,
    begun: Option<u32>,
    rank: u32,
    dat: u32,
    element: u32,
) -> Result<(), OutOfMemory>
    requires is { IsProgram program.now }
    requires memory { length memory.now ≡ all_cells (program_of_run program.now) (ranks_in program.now.blocks.now) }
    requires begun { HasBegun (program_of_run program.now) (owners_of_run program.now) begun }
    requires rank { rank < ranks_in program.now.blocks.now }
    requires dat { dat < dat_count (program_of_run program.now).mesh }
    requires element { element < set_size (program_of_run program.now).mesh (dat_set (program_of_run program.now).mesh dat) }
    ensures { OnOk result ((st : ChainState Fault) → StoresStand (program_of_run program.now) (owners_of_run program.now) memory.now st
        → IsHolding (program_of_run program.now) (owners_of_run program.now) begun rank (st.stores rank)
        → out.new.items ≡ out.old.items ++ cond (is_some (st.stores rank dat element))
        (pair_text (program_of_run program.now).mesh (st.stores rank) dat element) []) }
{
    if !is_held(program, begun, rank, dat, element) {
        return Ok(());
    }
    let (_, dim) = program.blocks.bound.mesh.dat_shape(dat);
    let from = pair_at(program.blocks, rank, dat, element);
    put_pair(out, element, &memory[from..from + dim as usize])?;
    Ok(())
}

// The pairs of a dat that a rank holds.
fn put_pairs(
    out: &mut Vec<u8>,
    memory: &[i32],
    program: &Program<'_>,
    begun: Option<u32>,
    rank: u32,
    dat: u32,
) -> Result<(), OutOfMemory>
    requires is { IsProgram program.now }
    requires memory { length memory.now ≡ all_cells (program_of_run program.now) (ranks_in program.now.blocks.now) }
    requires begun { HasBegun (program_of_run program.now) (owners_of_run program.now) begun }
    requires rank { rank < ranks_in program.now.blocks.now }
    requires dat { dat < dat_count (program_of_run program.now).mesh }
    ensures { OnOk result ((st : ChainState Fault) → StoresStand (program_of_run program.now) (owners_of_run program.now) memory.now st
        → IsHolding (program_of_run program.now) (owners_of_run program.now) begun rank (st.stores rank)
        → out.new.items ≡ out.old.items ++ flat_map (pair_text (program_of_run program.now).mesh (st.stores rank) dat)
        (held_in (program_of_run program.now).mesh (st.stores rank) dat)) }
{
    program.blocks.bound.mesh.is_in_range();
    let (set, _) = program.blocks.bound.mesh.dat_shape(dat);
    for element in 0..program.blocks.bound.mesh.set_size(set) {
        put_held(out, memory, program, begun, rank, dat, element)?;
    }
    Ok(())
}

// A rank's store.
fn put_store(
    out: &mut Vec<u8>,
    memory: &[i32],
    program: &Program<'_>,
    begun: Option<u32>,
    rank: u32,
) -> Result<(), OutOfMemory>
    requires is { IsProgram program.now }
    requires memory { length memory.now ≡ all_cells (program_of_run program.now) (ranks_in program.now.blocks.now) }
    requires begun { HasBegun (program_of_run program.now) (owners_of_run program.now) begun }
    requires rank { rank < ranks_in program.now.blocks.now }
    ensures { OnOk result ((st : ChainState Fault) → StoresStand (program_of_run program.now) (owners_of_run program.now) memory.now st
        → IsHolding (program_of_run program.now) (owners_of_run program.now) begun rank (st.stores rank)
        → out.new.items ≡ out.old.items ++ store_text (program_of_run program.now).mesh rank (st.stores rank)) }
{
    for dat in 0..program.blocks.bound.mesh.dat_count() {
        put_header(out, program, begun, rank, dat)?;
        put_pairs(out, memory, program, begun, rank, dat)?;
    }
    Ok(())
}

/// Appends the dump of all stores.
///
/// # Errors
/// Want of memory alone.
pub fn put_stores(
    out: &mut Vec<u8>,
    memory: &[i32],
    program: &Program<'_>,
    begun: Option<u32>,
) -> Result<(), OutOfMemory>
    requires is { IsProgram program.now }
    requires memory { length memory.now ≡ all_cells (program_of_run program.now) (ranks_in program.now.blocks.now) }
    requires begun { HasBegun (program_of_run program.now) (owners_of_run program.now) begun }
    ensures { OnOk result ((st : ChainState Fault) → StoresStand (program_of_run program.now) (owners_of_run program.now) memory.now st
        → ((r : ℕ) → r < ranks_in program.now.blocks.now
        → IsHolding (program_of_run program.now) (owners_of_run program.now) begun r (st.stores r))
        → out.new.items ≡ out.old.items ++ stores_text (program_of_run program.now).mesh (ranks_in program.now.blocks.now) st.stores) }
{
    out.extend_from_slice(b"dump\n")?;
    for rank in 0..program.blocks.owners.ranks {
        put_store(out, memory, program, begun, rank)?;
    }
    Ok(())
}

// The memory before the first item.

ghost use Rattle.std.specs.Prelude.{◌≡◌, ◌<◌, IfOk, length};
ghost use Rattle.bound_program.specs.Values.{BoundValue};
ghost use Rattle.mesh_decl.specs.Mesh.{IsInRange, dat_count, dat_set, set_size};
ghost use Rattle.run_model.specs.Memory.{first_memory};
ghost use Rattle.deep_halo.specs.Places.{all_cells};
ghost use Rattle.deep_halo.specs.Sound.{Sound, program_in, ranks_in};
ghost use Rattle.deep_halo.specs.Cells.{BlocksHold, Hold, Values, first_in_last, taken_by_owners, is_below, is_earlier};

use crate::chain_memory::chain_stores::pairs::copy_pair;
use crate::chain_memory::{Blocks, owner_of};
use op_num::OutOfMemory;
use std::alloc::{AllocError, Global};

/// Zeros in the blocks of so many ranks, and behind these a block with the first values of all cells.
///
/// # Errors
/// Want of memory, also where 64 bits don't count the cells.
pub fn first_cells(alloc: Global, ranks: u32, first: &[i32]) -> Result<Vec<i32>, OutOfMemory>
    ensures { IfOk result (λ v. (b : BoundValue) → IsInRange b.mesh → first.now ≡ first_memory b
        → BlocksHold b ranks v.items (first_in_last b ranks)) }
{
    run_model::memory_holds();
    let count = first.len().checked_mul(ranks as usize).ok_or(AllocError)?;
    let mut memory = vec![in alloc; 0; count]?;
    memory.extend_from_slice(first)?;
    Ok(memory)
}

// Copies the pairs of a dat from the last block to their owners' blocks.
fn start_dat(memory: &mut [i32], blocks: &Blocks<'_>, dat: u32)
    requires sound { Sound blocks.now }
    requires memory { length memory.old ≡ all_cells (program_in blocks.now) (ranks_in blocks.now) }
    requires dat { dat < dat_count (program_in blocks.now).mesh }
    ensures { (f : Values) → Hold blocks.now memory.old f
        → Hold blocks.now memory.new (taken_by_owners (program_in blocks.now) blocks.now.owners.now
        (is_below dat (set_size (program_in blocks.now).mesh (dat_set (program_in blocks.now).mesh dat))) f) }
{
    blocks.bound.mesh.is_in_range();
    let (set, _) = blocks.bound.mesh.dat_shape(dat);
    for element in 0..blocks.bound.mesh.set_size(set) {
        let to = owner_of(blocks, dat, element);
        copy_pair(memory, blocks, blocks.owners.ranks, to, dat, element);
    }
}

/// Copies all pairs from the last block to their owners' blocks.
pub fn start_owners(memory: &mut [i32], blocks: &Blocks<'_>)
    requires sound { Sound blocks.now }
    requires memory { length memory.old ≡ all_cells (program_in blocks.now) (ranks_in blocks.now) }
    ensures { (f : Values) → Hold blocks.now memory.old f
        → Hold blocks.now memory.new (taken_by_owners (program_in blocks.now) blocks.now.owners.now
        (is_earlier (dat_count (program_in blocks.now).mesh)) f) }
{
    blocks.bound.mesh.is_in_range();
    for dat in 0..blocks.bound.mesh.dat_count() {
        start_dat(memory, blocks, dat);
    }
}

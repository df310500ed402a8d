// Pairs of a dat and the elements of a list are cleared and copied.

ghost use Rattle.std.specs.Prelude.{◌≡◌, ◌≢◌, ◌<◌, ◌≤◌, ℕ, length, slice_index};
ghost use Rattle.mesh_decl.specs.Mesh.{dat_count, dat_set, set_size};
ghost use Rattle.mesh_decl.specs.Owners.{owner_of as owner};
ghost use Rattle.deep_halo.specs.Places.{all_cells};
ghost use Rattle.deep_halo.specs.Sound.{Sound, program_in, ranks_in};
ghost use Rattle.deep_halo.specs.Cells.{Values, Hold, cleared, taken};

use crate::chain_memory::chain_stores::pairs::{clear_pair, copy_pair};
use crate::chain_memory::{Blocks, owner_of};

/// Sets the cells of pairs of a dat and elements, by original numbers, in a rank's block to 0.
pub fn clear_pairs(memory: &mut [i32], blocks: &Blocks<'_>, rank: u32, dat: u32, elements: &[u32])
    requires sound { Sound blocks.now }
    requires memory { length memory.old ≡ all_cells (program_in blocks.now) (ranks_in blocks.now) }
    requires rank { rank < ranks_in blocks.now }
    requires dat { dat < dat_count (program_in blocks.now).mesh }
    requires elements { (k : ℕ) → k < length elements.now
        → slice_index elements.now k < set_size (program_in blocks.now).mesh (dat_set (program_in blocks.now).mesh dat) }
    ensures { (f : Values) → Hold blocks.now memory.old f → Hold blocks.now memory.new (cleared rank dat elements.now f) }
{
    for element in elements {
        clear_pair(memory, blocks, rank, dat, *element);
    }
}

/// Copies pairs of a dat and elements, by original numbers, which a rank doesn't own, from their owners' blocks to the
/// rank's.
pub fn copy_pairs(memory: &mut [i32], blocks: &Blocks<'_>, rank: u32, dat: u32, elements: &[u32])
    requires sound { Sound blocks.now }
    requires memory { length memory.old ≡ all_cells (program_in blocks.now) (ranks_in blocks.now) }
    requires rank { rank < ranks_in blocks.now }
    requires dat { dat < dat_count (program_in blocks.now).mesh }
    requires elements { (k : ℕ) → k < length elements.now
        → slice_index elements.now k < set_size (program_in blocks.now).mesh (dat_set (program_in blocks.now).mesh dat) }
    requires others { (k : ℕ) → k < length elements.now
        → owner blocks.now.owners.now (dat_set (program_in blocks.now).mesh dat) (slice_index elements.now k) ≢ rank }
    ensures { (f : Values) → Hold blocks.now memory.old f
        → Hold blocks.now memory.new (taken (program_in blocks.now) blocks.now.owners.now rank dat elements.now f) }
{
    for element in elements {
        let from = owner_of(blocks, dat, *element);
        copy_pair(memory, blocks, from, rank, dat, *element);
    }
}

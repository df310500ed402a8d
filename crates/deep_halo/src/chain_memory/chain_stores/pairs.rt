// Pairs are cleared and copied.

ghost use Rattle.std.specs.Prelude.{◌≡◌, ◌≢◌, ◌<◌, ◌≤◌, pos, length};
ghost use Rattle.mesh_decl.specs.Mesh.{dat_count, dat_set, set_size};
ghost use Rattle.run_model.specs.Windows.{Element, cell_in};
ghost use Rattle.deep_halo.specs.Places.{all_cells};
ghost use Rattle.deep_halo.specs.Sound.{Sound, program_in, ranks_in};
ghost use Rattle.deep_halo.specs.Cells.{Values, Hold, with_target};

use crate::chain_memory::{Blocks, copy_cells, fill_cells, pair_at};

/// Sets the cells of a pair of a dat and an element, by its original number, in a block to 0.
pub fn clear_pair(memory: &mut [i32], blocks: &Blocks<'_>, block: u32, dat: u32, element: u32)
    requires sound { Sound blocks.now }
    requires memory { length memory.old ≡ all_cells (program_in blocks.now) (ranks_in blocks.now) }
    requires block { block ≤ ranks_in blocks.now }
    requires dat { dat < dat_count (program_in blocks.now).mesh }
    requires element { element < set_size (program_in blocks.now).mesh (dat_set (program_in blocks.now).mesh dat) }
    ensures { (f : Values) → Hold blocks.now memory.old f
        → Hold blocks.now memory.new (with_target block (Element dat element) (λ i. pos 0) f) }
{
    let (_, dim) = blocks.bound.mesh.dat_shape(dat);
    fill_cells(
        memory,
        pair_at(blocks, block, dat, element),
        dim as usize,
        0,
    );
}

/// Copies the cells of a pair of a dat and an element, by its original number, from one block to another.
pub fn copy_pair(
    memory: &mut [i32],
    blocks: &Blocks<'_>,
    from: u32,
    to: u32,
    dat: u32,
    element: u32,
)
    requires sound { Sound blocks.now }
    requires memory { length memory.old ≡ all_cells (program_in blocks.now) (ranks_in blocks.now) }
    requires from { from ≤ ranks_in blocks.now }
    requires to { to ≤ ranks_in blocks.now }
    requires apart { from ≢ to }
    requires dat { dat < dat_count (program_in blocks.now).mesh }
    requires element { element < set_size (program_in blocks.now).mesh (dat_set (program_in blocks.now).mesh dat) }
    ensures { (f : Values) → Hold blocks.now memory.old f
        → Hold blocks.now memory.new (with_target to (Element dat element) (λ i. f from (cell_in (Element dat element) i)) f) }
{
    let (_, dim) = blocks.bound.mesh.dat_shape(dat);
    copy_cells(
        memory,
        pair_at(blocks, from, dat, element),
        pair_at(blocks, to, dat, element),
        dim as usize,
    );
}

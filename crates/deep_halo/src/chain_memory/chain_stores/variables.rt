// Variables are set and copied.

ghost use Rattle.std.specs.Prelude.{◌≡◌, ◌≢◌, ◌<◌, ◌≤◌, length};
ghost use Rattle.run_model.specs.Windows.{Whole, cell_in};
ghost use Rattle.deep_halo.specs.Places.{all_cells};
ghost use Rattle.deep_halo.specs.Sound.{Sound, program_in, ranks_in};
ghost use Rattle.deep_halo.specs.Cells.{Values, Hold, with_target};

use crate::chain_memory::{Blocks, copy_cells, fill_cells, variable_at, width_of};

/// Copies the cells of a variable from one block to another.
pub fn copy_variable(memory: &mut [i32], blocks: &Blocks<'_>, from: u32, to: u32, var: u32)
    requires sound { Sound blocks.now }
    requires memory { length memory.old ≡ all_cells (program_in blocks.now) (ranks_in blocks.now) }
    requires from { from ≤ ranks_in blocks.now }
    requires to { to ≤ ranks_in blocks.now }
    requires apart { from ≢ to }
    requires var { var < length (program_in blocks.now).vars }
    ensures { (f : Values) → Hold blocks.now memory.old f
        → Hold blocks.now memory.new (with_target to (Whole var) (λ i. f from (cell_in (Whole var) i)) f) }
{
    copy_cells(
        memory,
        variable_at(blocks, from, var),
        variable_at(blocks, to, var),
        width_of(blocks, var),
    );
}

/// Sets the cells of a variable in a block to a value.
pub fn fill_variable(memory: &mut [i32], blocks: &Blocks<'_>, block: u32, var: u32, value: i32)
    requires sound { Sound blocks.now }
    requires memory { length memory.old ≡ all_cells (program_in blocks.now) (ranks_in blocks.now) }
    requires block { block ≤ ranks_in blocks.now }
    requires var { var < length (program_in blocks.now).vars }
    ensures { (f : Values) → Hold blocks.now memory.old f → Hold blocks.now memory.new (with_target block (Whole var) (λ i. value) f) }
{
    fill_cells(
        memory,
        variable_at(blocks, block, var),
        width_of(blocks, var),
        value,
    );
}

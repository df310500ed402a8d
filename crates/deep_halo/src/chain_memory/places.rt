// Places of pairs and of variables.

ghost use Rattle.std.specs.Prelude.{◌≡◌, ◌<◌, ◌≤◌, ◌+◌, length};
ghost use Rattle.mesh_decl.specs.Mesh.{dat_count, dat_set, dat_dim, set_size};
ghost use Rattle.mesh_decl.specs.Owners.{owner_of as owner};
ghost use Rattle.run_model.specs.Windows.{cell_in, Element, Whole};
ghost use Rattle.run_model.specs.Arguments.{var_width};
ghost use Rattle.deep_halo.specs.Places.{in_block, all_cells};
ghost use Rattle.deep_halo.specs.Sound.{Sound, program_in, ranks_in};

use crate::chain_memory::blocks::Blocks;

/// Where the cells of a pair of a dat and an element, by its original number, stand in a block: that of a rank, or the
/// one behind them.
pub fn pair_at(blocks: &Blocks<'_>, block: u32, dat: u32, element: u32) -> usize
    requires sound { Sound blocks.now }
    requires block { block ≤ ranks_in blocks.now }
    requires dat { dat < dat_count (program_in blocks.now).mesh }
    requires element { element < set_size (program_in blocks.now).mesh (dat_set (program_in blocks.now).mesh dat) }
    ensures is { result ≡ in_block (program_in blocks.now) block (cell_in (Element dat element) 0) }
    ensures within { result + dat_dim (program_in blocks.now).mesh dat ≤ all_cells (program_in blocks.now) (ranks_in blocks.now) }
{
    run_model::memory_holds();
    let (_, dim) = blocks.bound.mesh.dat_shape(dat);
    block as usize * blocks.layout.cells
        + blocks.layout.dats[dat as usize]
        + element as usize * dim as usize
}

/// Where the cells of a variable stand in a block: that of a rank, or the one behind them.
pub fn variable_at(blocks: &Blocks<'_>, block: u32, var: u32) -> usize
    requires sound { Sound blocks.now }
    requires block { block ≤ ranks_in blocks.now }
    requires var { var < length (program_in blocks.now).vars }
    ensures is { result ≡ in_block (program_in blocks.now) block (cell_in (Whole var) 0) }
    ensures within { result + var_width (program_in blocks.now) var ≤ all_cells (program_in blocks.now) (ranks_in blocks.now) }
{
    run_model::memory_holds();
    block as usize * blocks.layout.cells + blocks.layout.dats_end + blocks.layout.vars[var as usize]
}

/// The rank that owns a pair of a dat and an element, by its original number.
pub fn owner_of(blocks: &Blocks<'_>, dat: u32, element: u32) -> u32
    requires sound { Sound blocks.now }
    requires dat { dat < dat_count (program_in blocks.now).mesh }
    requires element { element < set_size (program_in blocks.now).mesh (dat_set (program_in blocks.now).mesh dat) }
    ensures is { result ≡ owner blocks.now.owners.now (dat_set (program_in blocks.now).mesh dat) element }
    ensures below { result < ranks_in blocks.now }
{
    blocks.bound.mesh.is_in_range();
    let (set, _) = blocks.bound.mesh.dat_shape(dat);
    blocks.owners.rank_of(set, element)
}

/// How many cells the variable numbered `var` has.
pub fn width_of(blocks: &Blocks<'_>, var: u32) -> usize
    requires { var < length (program_in blocks.now).vars }
    ensures { result ≡ var_width (program_in blocks.now) var }
{
    blocks.bound.vars[var as usize].start.as_slice().len()
}

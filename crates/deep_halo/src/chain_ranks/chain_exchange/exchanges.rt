// The copies that ranks hold of others' pairs.

ghost use Rattle.std.specs.Prelude.{◌≡◌, ◌<◌, ◌&&◌, true, length, nat_eq, nat_lt};
ghost use Rattle.mesh_decl.specs.Mesh.{dat_count};
ghost use Rattle.chain_model.specs.Counts.{begins_at};
ghost use Rattle.chain_needs.specs.Slices.{AreSlices, IsFreeItem};
ghost use Rattle.deep_halo.specs.Places.{all_cells};
ghost use Rattle.deep_halo.specs.Sound.{Sound, program_in, ranks_in};
ghost use Rattle.deep_halo.specs.Cells.{Values, Hold};
ghost use Rattle.deep_halo.specs.Exchanged.{exchanged_where, exchanged_all};

use crate::chain_memory::Blocks;
use crate::chain_memory::chain_stores::{clear_pairs, copy_pairs};
use chain_needs::chain_slices::Slices;

/// What an exchange does with the copies that ranks hold of others' pairs.
#[derive(Clone, Copy, PartialEq, Eq, Debug)]
pub enum Exchange {
    /// They are dropped, and their cells are 0.
    Drop,
    /// They are taken from their owners.
    Take,
}

// A rank's copies of a dat.
fn exchange_rank(
    memory: &mut [i32],
    blocks: &Blocks<'_>,
    slices: &Slices,
    item: u32,
    what: Exchange,
    dat: u32,
    rank: u32,
)
    requires sound { Sound blocks.now }
    requires memory { length memory.old ≡ all_cells (program_in blocks.now) (ranks_in blocks.now) }
    requires slices { AreSlices (program_in blocks.now) blocks.now.owners.now slices.now }
    requires item { IsFreeItem (program_in blocks.now) item }
    requires begins { begins_at (program_in blocks.now) item ≡ true }
    requires dat { dat < dat_count (program_in blocks.now).mesh }
    requires rank { rank < ranks_in blocks.now }
    ensures { (f : Values) → Hold blocks.now memory.old f
        → Hold blocks.now memory.new
        (exchanged_where (program_in blocks.now) blocks.now.owners.now item what (λ r d. nat_eq r rank && nat_eq d dat) f) }
{
    let elements = slices.copies(item, dat, rank);
    match what {
        Exchange::Drop => clear_pairs(memory, blocks, rank, dat, elements),
        Exchange::Take => copy_pairs(memory, blocks, rank, dat, elements),
    }
}

// All ranks' copies of a dat.
fn exchange_dat(
    memory: &mut [i32],
    blocks: &Blocks<'_>,
    slices: &Slices,
    item: u32,
    what: Exchange,
    dat: u32,
)
    requires sound { Sound blocks.now }
    requires memory { length memory.old ≡ all_cells (program_in blocks.now) (ranks_in blocks.now) }
    requires slices { AreSlices (program_in blocks.now) blocks.now.owners.now slices.now }
    requires item { IsFreeItem (program_in blocks.now) item }
    requires begins { begins_at (program_in blocks.now) item ≡ true }
    requires dat { dat < dat_count (program_in blocks.now).mesh }
    ensures { (f : Values) → Hold blocks.now memory.old f
        → Hold blocks.now memory.new
        (exchanged_where (program_in blocks.now) blocks.now.owners.now item what
        (λ r d. nat_lt r (ranks_in blocks.now) && nat_eq d dat) f) }
{
    for rank in 0..blocks.owners.ranks {
        exchange_rank(memory, blocks, slices, item, what, dat, rank);
    }
}

/// Drops or takes the copies of the chain that begins at an item: of each rank, the pairs that it needs before the item
/// and doesn't own. The time goes by their cells.
pub fn exchange_copies(
    memory: &mut [i32],
    blocks: &Blocks<'_>,
    slices: &Slices,
    item: u32,
    what: Exchange,
)
    requires sound { Sound blocks.now }
    requires memory { length memory.old ≡ all_cells (program_in blocks.now) (ranks_in blocks.now) }
    requires slices { AreSlices (program_in blocks.now) blocks.now.owners.now slices.now }
    requires item { IsFreeItem (program_in blocks.now) item }
    requires begins { begins_at (program_in blocks.now) item ≡ true }
    ensures { (f : Values) → Hold blocks.now memory.old f
        → Hold blocks.now memory.new (exchanged_all (program_in blocks.now) blocks.now.owners.now item what f) }
{
    for dat in 0..blocks.bound.mesh.dat_count() {
        exchange_dat(memory, blocks, slices, item, what, dat);
    }
}

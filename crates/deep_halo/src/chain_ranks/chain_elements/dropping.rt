// What an element leaves in pairs that its rank doesn't hold.

ghost use Rattle.std.specs.Prelude.{◌≡◌, ◌<◌, length};
ghost use Rattle.mesh_decl.specs.Mesh.{set_size};
ghost use Rattle.bound_program.specs.Fits.{ArgFits};
ghost use Rattle.chain_needs.specs.Slices.{AreSlices, IsFreeItem};
ghost use Rattle.deep_halo.specs.Places.{all_cells};
ghost use Rattle.deep_halo.specs.Sound.{Sound, IsLoop, program_in, ranks_in};
ghost use Rattle.deep_halo.specs.Cells.{Values, Hold};
ghost use Rattle.deep_halo.specs.Dropping.{dropped, dropped_by};

use crate::chain_memory::chain_stores::clear_pair;
use crate::chain_memory::{Blocks, Loop, target_of};
use bound_program::Arg;
use chain_needs::chain_slices::Slices;

// Sets the pair that an element reaches by an argument on a dat to 0 in the rank's block, where the rank doesn't need
// it before the item at which the chain began.
fn drop_arg(
    memory: &mut [i32],
    blocks: &Blocks<'_>,
    slices: &Slices,
    begun: u32,
    rank: u32,
    set: u32,
    arg: Arg,
    element: u32,
)
    requires sound { Sound blocks.now }
    requires memory { length memory.old ≡ all_cells (program_in blocks.now) (ranks_in blocks.now) }
    requires slices { AreSlices (program_in blocks.now) blocks.now.owners.now slices.now }
    requires begun { IsFreeItem (program_in blocks.now) begun }
    requires rank { rank < ranks_in blocks.now }
    requires fits { ArgFits (program_in blocks.now) set arg }
    requires element { element < set_size (program_in blocks.now).mesh set }
    ensures { (f : Values) → Hold blocks.now memory.old f
        → Hold blocks.now memory.new (dropped_by (program_in blocks.now) blocks.now.owners.now begun rank element arg f) }
{
    if let Arg::Dat { dat, via, .. } = arg {
        let target = target_of(blocks, set, dat, via, element);
        if !slices.needs(begun, rank, dat, target) {
            clear_pair(memory, blocks, rank, dat, target);
        }
    }
}

/// Sets pairs that an element reaches and that its rank doesn't need before the item at which the chain began to 0 in
/// the rank's block.
pub fn drop_unheld(
    memory: &mut [i32],
    blocks: &Blocks<'_>,
    slices: &Slices,
    all: &Loop<'_>,
    begun: u32,
    rank: u32,
    element: u32,
)
    requires sound { Sound blocks.now }
    requires memory { length memory.old ≡ all_cells (program_in blocks.now) (ranks_in blocks.now) }
    requires slices { AreSlices (program_in blocks.now) blocks.now.owners.now slices.now }
    requires of { IsLoop (program_in blocks.now) all.now }
    requires begun { IsFreeItem (program_in blocks.now) begun }
    requires rank { rank < ranks_in blocks.now }
    requires element { element < set_size (program_in blocks.now).mesh all.now.set }
    ensures { (f : Values) → Hold blocks.now memory.old f
        → Hold blocks.now memory.new (dropped (program_in blocks.now) blocks.now.owners.now begun rank element all.now.args.now f) }
{
    for arg in all.args {
        drop_arg(memory, blocks, slices, begun, rank, all.set, *arg, element);
    }
}

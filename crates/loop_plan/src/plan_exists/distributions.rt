// Halos and local meshes are there.
ghost use Rattle.loop_plan.specs.Laws.{DistributionsExist, NarrowMeshesFitMemory};

use local_mesh::halo_lists::executed_targets_are_copies;
use mesh_decl::declarations_hold;

/// A mesh has halos and local meshes for any owners and new numbers of its elements.
pub fn some_distribution()
    ensures { DistributionsExist }
{
    executed_targets_are_copies();
    declarations_hold();
}

/// The lists of targets of a mesh whose maps have a dim of at most 64 are as short as those of memory.
pub fn narrow_meshes_fit_memory()
    ensures { NarrowMeshesFitMemory }
{
    declarations_hold();
}

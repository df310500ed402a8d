// A mesh on several ranks.
ghost use Rattle.std.specs.Prelude.{IfOk};
ghost use Rattle.mesh_decl.specs.Owners.{AreOwners, ArePerms};
ghost use Rattle.partition.specs.Distributions.{IsDistribution};

use crate::distribute::types::Distribution;
use local_mesh::halo_lists::halos;
use local_mesh::localise;
use mesh_decl::{Mesh, Owners, Perms};
use op_num::OutOfMemory;
use std::alloc::Global;

/// The halos of a mesh and the local mesh of each rank, by these owners, which are part of what is given, and these new
/// numbers, which are dropped: the local meshes keep their order. It fails only for want of memory, also where a rank
/// would have 2^64 cells or more.
pub fn distribute(
    alloc: Global,
    mesh: &Mesh,
    owners: Owners,
    perms: Perms,
) -> Result<Distribution, OutOfMemory>
    requires owners { AreOwners mesh.now owners }
    requires perms { ArePerms mesh.now perms }
    ensures { IfOk result (IsDistribution mesh.now owners perms) }
{
    let halos = halos(alloc, mesh, &owners)?;
    let ranks = localise(alloc, mesh, &owners, &halos, &perms)?;
    Ok(Distribution {
        owners,
        halos,
        ranks,
    })
}

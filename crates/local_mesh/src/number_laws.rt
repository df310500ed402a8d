// What the local numbers of a rank say.
ghost use Rattle.local_mesh.specs.Numbers.{OwnedComeFirst, ExecutedComeFirst, OriginalsAreDistinct, OriginalsAreHeld, CoreIsMarked};
ghost use Rattle.local_mesh.specs.Numbers.{RankMeshesAreClosed, TargetsAreLocal, EqualTargetsAreLocal};
ghost use Rattle.local_mesh.specs.Values.{AreOne};

use crate::halo_lists::executed_targets_are_copies;

/// A local number is below the count of what the rank owns exactly where the rank owns its element.
pub fn owned_come_first()
    ensures { OwnedComeFirst }
{}

/// A local number is below the count of what the rank executes exactly where the rank executes its element.
pub fn executed_come_first()
    ensures { ExecutedComeFirst }
{}

/// Different local numbers of a set are those of different elements.
pub fn originals_are_distinct()
    ensures { OriginalsAreDistinct }
{}

/// The elements that a rank has of a set are those that it owns or imports.
pub fn originals_are_held()
    ensures { OriginalsAreHeld }
{}

/// A local element is marked as core exactly where the rank owns it and all its targets.
pub fn core_is_marked()
    ensures { CoreIsMarked }
{}

/// A rank has different elements of the mesh, with the targets of all that it executes among them.
pub fn rank_meshes_are_closed()
    ensures { RankMeshesAreClosed }
{
    executed_targets_are_copies();
}

/// A local element is the target of one that a rank executes exactly where its local number stands in the map's table.
pub fn targets_are_local()
    ensures { TargetsAreLocal }
{}

/// Two targets of elements that a rank executes are one element exactly where their local numbers are one.
pub fn equal_targets_are_local()
    ensures { EqualTargetsAreLocal }
{}

/// Owners and new numbers of a mesh have one local mesh for each rank.
pub fn one_rank_meshes()
    ensures { AreOne }
{}

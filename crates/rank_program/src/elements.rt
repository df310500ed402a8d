// The elements at the places of ranks.

ghost use Rattle.std.specs.Prelude.{◌≡◌, ◌<◌, length, nat_lt};
ghost use Rattle.local_mesh.specs.Numbers.{own_in};
ghost use Rattle.bound_plan.specs.Places.{original_at};
ghost use Rattle.local_mesh.specs.Lists as the;

use local_mesh::{LocalSet, RankMesh};

// The sets of a rank.
fn sets_of(meshes: &[RankMesh], rank: u32) -> &[LocalSet]
    requires { rank < length meshes.now }
    ensures { result.now ≡ the.sets_of meshes.now rank }
{
    &meshes[rank as usize].sets
}

// Of one set, the original numbers of a rank's elements, by local number.
fn originals_of(meshes: &[RankMesh], rank: u32, set: u32) -> &[u32]
    requires rank { rank < length meshes.now }
    requires set { set < length (the.sets_of meshes.now rank) }
    ensures { result.now ≡ the.originals_of meshes.now rank set }
{
    sets_of(meshes, rank)[set as usize].original.as_slice()
}

/// The original number of the element of a set that has a local number on a rank.
pub fn original_of(meshes: &[RankMesh], rank: u32, set: u32, place: u32) -> u32
    requires rank { rank < length meshes.now }
    requires set { set < length (the.sets_of meshes.now rank) }
    requires place { place < length (the.originals_of meshes.now rank set) }
    ensures { result ≡ original_at meshes.now rank set place }
{
    originals_of(meshes, rank, set)[place as usize]
}

/// How many elements of a set a rank owns: they have the first local numbers.
pub fn own_count(meshes: &[RankMesh], rank: u32, set: u32) -> u32
    requires rank { rank < length meshes.now }
    requires set { set < length (the.sets_of meshes.now rank) }
    ensures { result ≡ own_in (the.sets_of meshes.now rank) set }
{
    sets_of(meshes, rank)[set as usize].own
}

/// Whether a rank owns the element of a set that has a local number on it.
pub fn is_own(meshes: &[RankMesh], rank: u32, set: u32, place: u32) -> bool
    requires rank { rank < length meshes.now }
    requires set { set < length (the.sets_of meshes.now rank) }
    ensures { result ≡ nat_lt place (own_in (the.sets_of meshes.now rank) set) }
{
    place < own_count(meshes, rank, set)
}

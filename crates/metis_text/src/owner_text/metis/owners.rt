// Owners by the ranks of one set.

ghost use Rattle.std.specs.Prelude.{◌≡◌, ◌+◌, ◌<◌, ◌≤◌, ◌^◌, IfOk, IfErr, length};
ghost use Rattle.mesh_decl.specs.Mesh.{set_count};
ghost use Rattle.metis_text.specs.Owned.{AreByMetis, IsRefused, AreOneGiven};

use crate::owner_text::metis::numbers::read_ranks;
use crate::owner_text::metis::refusals::MetisRefusal;
use mesh_decl::{Mesh, Owners};
use op_num::OutOfMemory;
use partition::derive;
use std::alloc::Global;

// Nothing is given, but these owners of one set.
fn given_for(
    alloc: Global,
    sets: u32,
    set: u32,
    owners: Vec<u32>,
) -> Result<Vec<Option<Vec<u32>>>, OutOfMemory>
    requires { set < sets }
    ensures { IfOk result (λ v. AreOneGiven sets set owners.items v.items) }
{
    let mut given = Vec::new(alloc);
    for _ in 0..sets {
        given.push(None)?;
    }
    given[set as usize] = Some(owners);
    Ok(given)
}

/// Owners of the elements of all sets of a mesh on `ranks` ranks, 1 to 64. Those of the set numbered `set` are what the
/// partition `bytes` says, which METIS or another graph partitioner wrote: line by line a number for each element, in
/// order of original numbers. Those of the other sets are derived from them, as `partition::derive` does. The text has
/// fewer than 2 ^ 32 - 1 bytes.
///
/// Refused is the first line that isn't as awaited: one that has no rank, one that has more, or the first of those that
/// are missing. It takes time linear in the bytes, and that of `derive`.
pub fn owners_by_metis(
    alloc: Global,
    mesh: &Mesh,
    ranks: u32,
    set: u32,
    bytes: &[u8],
) -> Result<Owners, MetisRefusal>
    requires some { 0 < ranks }
    requires few { ranks ≤ 64 }
    requires set { set < set_count mesh.now }
    requires lines { length bytes.now + 1 < 2 ^ 32 }
    ensures ok { IfOk result (AreByMetis mesh.now ranks set bytes.now) }
    ensures err { IfErr result (IsRefused mesh.now ranks set bytes.now) }
{
    mesh.is_in_range();
    let owners = read_ranks(alloc, bytes, ranks, mesh.set_size(set))?;
    let given = given_for(alloc, mesh.set_count(), set, owners)?;
    Ok(derive(alloc, mesh, ranks, given)?)
}

// Owners, as they are asked for.
ghost use Rattle.std.specs.Prelude.{◌+◌, ◌^◌, ◌<◌, ◌≤◌, length, Ok, Err, IfOk, IfErr};
ghost use Rattle.mesh_decl.specs.Owners.{AreOwners};
ghost use Rattle.partition.specs.Parts.{Bisect, Grow, Text, OwnersRefusal as Refusal, parts_of, HasLines, UnownedWhere, IsUnowned};
ghost use Rattle.partition.specs.Judgements.{OwnersAre};

use crate::distribute::types::{OwnersRefusal, Parts};
use crate::part_text::{PartRefusal, read_partition};
use crate::{bisect, block, grow};
use mesh_decl::{Mesh, Owners};
use std::alloc::Global;

// Owners by the first dat of this name.
fn bisected<'a>(
    alloc: Global,
    mesh: &Mesh,
    ranks: u32,
    name: &'a [u8],
) -> Result<Owners, OwnersRefusal<'a>>
    requires some { 0 < ranks }
    requires few { ranks ≤ 64 }
    ensures ok { IfOk result (λ o. OwnersAre mesh.now ranks (Bisect name.now) (Ok o)) }
    ensures fit { IfOk result (AreOwners mesh.now) }
    ensures refused { IfErr result (UnownedWhere (λ r. OwnersAre mesh.now ranks (Bisect name.now) (Err r))) }
    ensures refuses { (r : Refusal) → OwnersAre mesh.now ranks (Bisect name.now) (Err r) → IsUnowned result r }
{
    match mesh.dat_named(name) {
        Some(dat) => Ok(bisect(alloc, mesh, ranks, dat)?),
        None => Err(OwnersRefusal::UnknownDat(name)),
    }
}

// Owners by the first map of this name.
fn grown<'a>(
    alloc: Global,
    mesh: &Mesh,
    ranks: u32,
    name: &'a [u8],
) -> Result<Owners, OwnersRefusal<'a>>
    requires some { 0 < ranks }
    requires few { ranks ≤ 64 }
    ensures ok { IfOk result (λ o. OwnersAre mesh.now ranks (Grow name.now) (Ok o)) }
    ensures fit { IfOk result (AreOwners mesh.now) }
    ensures refused { IfErr result (UnownedWhere (λ r. OwnersAre mesh.now ranks (Grow name.now) (Err r))) }
    ensures refuses { (r : Refusal) → OwnersAre mesh.now ranks (Grow name.now) (Err r) → IsUnowned result r }
{
    match mesh.map_named(name) {
        Some(map) => Ok(grow(alloc, mesh, ranks, map)?),
        None => Err(OwnersRefusal::UnknownMap(name)),
    }
}

// Owners as a text spells them.
fn read<'a>(
    alloc: Global,
    mesh: &Mesh,
    ranks: u32,
    bytes: &[u8],
) -> Result<Owners, OwnersRefusal<'a>>
    requires some { 0 < ranks }
    requires few { ranks ≤ 64 }
    requires lines { length bytes.now + 1 < 2 ^ 32 }
    ensures ok { IfOk result (λ o. OwnersAre mesh.now ranks (Text bytes.now) (Ok o)) }
    ensures fit { IfOk result (AreOwners mesh.now) }
    ensures refused { IfErr result (UnownedWhere (λ r. OwnersAre mesh.now ranks (Text bytes.now) (Err r))) }
    ensures refuses { (r : Refusal) → OwnersAre mesh.now ranks (Text bytes.now) (Err r) → IsUnowned result r }
{
    match read_partition(alloc, bytes, mesh, ranks) {
        Ok(owners) => Ok(owners),
        Err(PartRefusal::OutOfMemory) => Err(OwnersRefusal::OutOfMemory),
        Err(refusal) => Err(OwnersRefusal::Text(refusal)),
    }
}

/// The owners of the elements of a mesh on `ranks` ranks, 1 to 64, as `parts` asks for them. Names mean the first dat
/// or map of the name. It is refused exactly where no dat or no map has the name, or where the text spells no owners of
/// the mesh, with its first refusal; and it fails otherwise only for want of memory. A text has fewer than 2^32 - 1
/// bytes.
pub fn owners_by<'a>(
    alloc: Global,
    mesh: &Mesh,
    ranks: u32,
    parts: &Parts<'a>,
) -> Result<Owners, OwnersRefusal<'a>>
    requires some { 0 < ranks }
    requires few { ranks ≤ 64 }
    requires lines { HasLines (parts_of parts.now) }
    ensures ok { IfOk result (λ o. OwnersAre mesh.now ranks (parts_of parts.now) (Ok o)) }
    ensures fit { IfOk result (AreOwners mesh.now) }
    // A refusal is so.
    ensures refused { IfErr result (UnownedWhere (λ r. OwnersAre mesh.now ranks (parts_of parts.now) (Err r))) }
    // And one that is so is given, unless memory runs out.
    ensures refuses { (r : Refusal) → OwnersAre mesh.now ranks (parts_of parts.now) (Err r) → IsUnowned result r }
{
    match *parts {
        Parts::Block => Ok(block(alloc, mesh, ranks)?),
        Parts::Bisect(dat) => bisected(alloc, mesh, ranks, dat),
        Parts::Grow(map) => grown(alloc, mesh, ranks, map),
        Parts::Text(bytes) => read(alloc, mesh, ranks, bytes),
    }
}

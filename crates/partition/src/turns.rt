// Owners for all sets, one set after another.
ghost use Rattle.std.specs.Prelude.{◌≡◌, ℕ, true, false, ◌<◌, ◌≤◌, List, [], IfOk, IfSome, IfNone, Option, Vec, length, map, is_some};
ghost use Rattle.std.specs.Prelude.{slice_index, slice_index_or, not, nat_eq};
ghost use Rattle.std.specs.declared.alloc.Global.{Global as TheGlobal};
ghost use Rattle.mesh_decl.specs.Mesh.{set_count, set_size};
ghost use Rattle.lemmas.specs.Below.{any_below};
ghost use Rattle.partition.specs.Derive.{IsNextSet, AreDerived, AreKnown, given_list};

use crate::blocks::block_set;
use crate::derived::{elect_by_names, elect_by_targets};
use crate::next::{next_by_blocks, next_by_names, next_by_targets};
use mesh_decl::{Mesh, Numbers, Owners};
use op_num::OutOfMemory;
use std::alloc::Global;

// The set that gets owners next, and they.
fn next_owners(
    alloc: Global,
    mesh: &Mesh,
    ranks: u32,
    sets: &[Numbers],
    known: &[bool],
) -> Result<Option<(u32, Vec<u32>)>, OutOfMemory>
    requires some { 0 < ranks }
    requires few { ranks ≤ 64 }
    requires known { AreKnown mesh.now ranks sets.now known.now }
    ensures next { IfOk result
        (λ o. IfSome o (λ p. IsNextSet mesh.now ranks (λ s. slice_index_or sets.now s [])
        (λ s. slice_index_or known.now s false) p.0 p.1.items)) }
    ensures length { IfOk result (λ o. IfSome o (λ p. length p.1.items ≡ set_size mesh.now p.0)) }
    ensures within { IfOk result (λ o. IfSome o (λ p. (x : ℕ) → x < set_size mesh.now p.0 → slice_index p.1.items x < ranks)) }
    ensures none { IfOk result (λ o. IfNone o (any_below (set_count mesh.now) (λ s. not (slice_index_or known.now s false)) ≡ false)) }
{
    let _map_count = mesh.map_count();
    if let Some((set, map)) = next_by_targets(mesh, known) {
        let (_, to, _) = mesh.map_ends(map);
        let owners = sets[to as usize].as_slice();
        return Ok(Some((set, elect_by_targets(alloc, mesh, owners, map, ranks)?)));
    }
    if let Some((set, map)) = next_by_names(mesh, known) {
        let (from, _, _) = mesh.map_ends(map);
        let owners = sets[from as usize].as_slice();
        return Ok(Some((set, elect_by_names(alloc, mesh, owners, map, ranks)?)));
    }
    match next_by_blocks(mesh, known) {
        Some(set) => Ok(Some((set, block_set(alloc, mesh.set_size(set), ranks)?))),
        None => Ok(None),
    }
}

/// The owners of all sets from those of the sets that have some.
pub fn derive_rest(
    alloc: Global,
    mesh: &Mesh,
    ranks: u32,
    sets: Vec<Numbers>,
    known: Vec<bool>,
) -> Result<Owners, OutOfMemory>
    requires some { 0 < ranks }
    requires few { ranks ≤ 64 }
    requires known { AreKnown mesh.now ranks sets.items known.items }
    ensures ranks { IfOk result (λ o. o.ranks ≡ ranks) }
    ensures derived { IfOk result
        (λ o. AreDerived mesh.now o (λ s. slice_index_or known.items s false) (λ s. slice_index_or sets.items s [])) }
{
    let mut sets = sets;
    let mut known = known;
    for turn in 0..mesh.set_count() {
        match next_owners(alloc, mesh, ranks, &sets, &known)? {
            Some((set, owners)) => {
                sets[set as usize] = Numbers::new(owners);
                known[set as usize] = true;
            }
            None => {}
        }
    }
    Ok(Owners { ranks, sets })
}

/// The given lists, empty where there is none, and for each set whether there is one.
pub fn split_given(
    alloc: Global,
    given: Vec<Option<Vec<u32>>>,
) -> Result<(Vec<Numbers>, Vec<bool>), OutOfMemory>
    ensures sets { IfOk result (λ p. p.0.items ≡ map given_list given.items) }
    ensures known { IfOk result (λ p. p.1.items ≡ map (λ (v : Option (Vec ℕ TheGlobal)). is_some v) given.items) }
{
    let mut sets = Vec::with_capacity(alloc, given.len())?;
    let mut known = Vec::with_capacity(alloc, given.len())?;
    for list in given {
        match list {
            Some(owners) => {
                sets.push(Numbers::new(owners))?;
                known.push(true)?;
            }
            None => {
                sets.push(Numbers::new(Vec::new(alloc)))?;
                known.push(false)?;
            }
        }
    }
    Ok((sets, known))
}

/// The owners of all sets from those of one set.
pub fn derive_from(
    alloc: Global,
    mesh: &Mesh,
    ranks: u32,
    set: u32,
    owners: Vec<u32>,
) -> Result<Owners, OutOfMemory>
    requires some { 0 < ranks }
    requires few { ranks ≤ 64 }
    requires set { set < set_count mesh.now }
    requires length { length owners.items ≡ set_size mesh.now set }
    requires below { (x : ℕ) → x < set_size mesh.now set → slice_index owners.items x < ranks }
    ensures ranks { IfOk result (λ o. o.ranks ≡ ranks) }
    ensures derived { IfOk result (λ o. AreDerived mesh.now o (λ s. nat_eq s set) (λ s. owners.items)) }
{
    let mut sets = Vec::new(alloc);
    let mut known = Vec::new(alloc);
    for other in 0..mesh.set_count() {
        sets.push(Numbers::new(Vec::new(alloc)))?;
        known.push(other == set)?;
    }
    sets[set as usize] = Numbers::new(owners);
    derive_rest(alloc, mesh, ranks, sets, known)
}

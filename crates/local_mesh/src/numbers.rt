// The sets of a rank.
ghost use Rattle.std.specs.Prelude.{◌≡◌, ℕ, Bool, false, ◌<◌, ◌≤◌, ◌+◌, ◌^◌, ◌&&◌, ◌++◌, nat_lt, IfOk, length, slice_index};
ghost use Rattle.std.specs.Prelude.{slice_index_or, IfSome, IfNone, Some, None, Vec};
ghost use Rattle.std.specs.declared.alloc.Global.{Global as TheGlobal};
ghost use Rattle.lemmas.specs.Below.{row};
ghost use Rattle.local_mesh.specs.declared.halo_lists.types.SetHalo.{SetHalo};
ghost use Rattle.local_mesh.specs.declared.types.Groups.{Groups};
ghost use Rattle.local_mesh.specs.declared.types.LocalSet.{LocalSet};
ghost use Rattle.local_mesh.specs.Lookup.{Rises};
ghost use Rattle.local_mesh.specs.Parts.{AreParts, AreSorted, IsJoined, IsReady, IsJoinedFrom};

use crate::halo_lists::{Halos, SetHalo};
use crate::lookup::Lookup;
use crate::originals::Originals;
use crate::types::{Groups, LocalSet};
use op_num::OutOfMemory;
use std::alloc::Global;

// Three lists behind one another.
fn joined(
    alloc: Global,
    own: &[u32],
    exec: &[u32],
    nonexec: &[u32],
) -> Result<Vec<u32>, OutOfMemory>
    requires { length own.now + length exec.now + length nonexec.now < 2 ^ 32 }
    ensures { IfOk result (λ v. v.items ≡ own.now ++ exec.now ++ nonexec.now) }
{
    let mut numbers = Vec::with_capacity(alloc, own.len() + exec.len() + nonexec.len())?;
    numbers.extend_from_slice(own)?;
    numbers.extend_from_slice(exec)?;
    numbers.extend_from_slice(nonexec)?;
    Ok(numbers)
}

// Of these numbers whether each is among the first `own` and its flag is set.
fn own_flags(
    alloc: Global,
    numbers: &[u32],
    own: usize,
    flags: &[bool],
) -> Result<Vec<bool>, OutOfMemory>
    requires { (k : ℕ) → k < length numbers.now → slice_index numbers.now k < length flags.now }
    ensures length { IfOk result (λ v. length v.items ≡ length numbers.now) }
    ensures flags { IfOk result (λ v. (k : ℕ) → k < length numbers.now
        → slice_index_or v.items k false ≡ (nat_lt k own && slice_index_or flags.now (slice_index numbers.now k) false)) }
{
    let mut found = Vec::with_capacity(alloc, numbers.len())?;
    for (local, number) in numbers.iter().enumerate() {
        found.push(local < own && flags[*number as usize])?;
    }
    Ok(found)
}

/// One set of a rank, from its three groups by new number, and from which elements are core: `copies` has all their
/// elements by original number, unless each group rises. What is in `scratch` is lost.
pub fn local_set(
    alloc: Global,
    own: &[u32],
    exec: &[u32],
    nonexec: &[u32],
    copies: Option<Vec<u32>>,
    core: &[bool],
    scratch: &mut [u32],
) -> Result<LocalSet, OutOfMemory>
    requires parts { AreParts (length core.now) (own.now ++ exec.now ++ nonexec.now) }
    requires sorted { IfSome copies (λ c. AreSorted (own.now ++ exec.now ++ nonexec.now) c.items) }
    requires rising { IfNone copies (Rises own.now × Rises exec.now × Rises nonexec.now) }
    requires room { length core.now ≤ length scratch.old }
    ensures { IfOk result (IsJoined own.now exec.now nonexec.now core.now) }
{
    let numbers = joined(alloc, own, exec, nonexec)?;
    let core = own_flags(alloc, &numbers, own.len(), core)?;
    let executed = own.len() + exec.len();
    let lookup = Lookup::new(alloc, &numbers, own.len(), executed, copies, scratch)?;
    Ok(LocalSet {
        own: own.len() as u32,
        exec: exec.len() as u32,
        nonexec: nonexec.len() as u32,
        original: Originals::new(numbers, lookup),
        core,
    })
}

// What a rank has of a set by original number, where the groups tell it.
fn copies_of(alloc: Global, groups: &Groups, rank: u32) -> Result<Option<Vec<u32>>, OutOfMemory>
    requires { IfSome groups.now.copies (λ c. rank < length c.items) }
    ensures some { IfOk result (λ v. IfSome v (λ c. (d : Vec (Vec ℕ TheGlobal) TheGlobal) × (groups.now.copies ≡ Some d)
        × (c.items ≡ row d.items rank))) }
    ensures none { IfOk result (λ v. IfNone v (groups.now.copies ≡ None)) }
{
    match &groups.copies {
        Some(lists) => {
            let copies = Vec::from_slice(alloc, &lists[rank as usize])?;
            Ok(Some(copies))
        }
        None => Ok(None),
    }
}

// One set of a rank, from the groups of all ranks. What is in `scratch` is lost.
fn set_of_rank(
    alloc: Global,
    groups: &Groups,
    halo: &SetHalo,
    rank: u32,
    scratch: &mut [u32],
) -> Result<LocalSet, OutOfMemory>
    requires { IsReady rank (length scratch.old) groups.now halo.now }
    ensures { IfOk result (IsJoinedFrom rank groups.now halo.now) }
{
    let own = groups.own[rank as usize].as_slice();
    let exec = groups.exec[rank as usize].as_slice();
    let nonexec = groups.nonexec[rank as usize].as_slice();
    let copies = copies_of(alloc, groups, rank)?;
    let set = local_set(alloc, own, exec, nonexec, copies, &halo.core, scratch)?;
    Ok(set)
}

/// The sets of a rank. What is in `scratch` is lost.
pub fn local_sets(
    alloc: Global,
    groups: &[Groups],
    halos: &Halos,
    rank: u32,
    scratch: &mut [u32],
) -> Result<Vec<LocalSet>, OutOfMemory>
    requires halos { length halos.now.sets.items ≡ length groups.now }
    requires ready { (s : ℕ) (t : Groups) (h : SetHalo) → s < length groups.now
        → IsReady rank (length scratch.old) (slice_index_or groups.now s t) (slice_index_or halos.now.sets.items s h) }
    ensures count { IfOk result (λ v. length v.items ≡ length groups.now) }
    ensures joined { IfOk result (λ v. (s : ℕ) (t : Groups) (h : SetHalo) (d : LocalSet) → s < length groups.now
        → IsJoinedFrom rank (slice_index_or groups.now s t) (slice_index_or halos.now.sets.items s h) (slice_index_or v.items s d)) }
{
    let mut sets = Vec::with_capacity(alloc, groups.len())?;
    for set in 0..groups.len() {
        let parts = &groups[set];
        let halo = &halos.sets[set];
        sets.push(set_of_rank(alloc, parts, halo, rank, scratch)?)?;
    }
    Ok(sets)
}

// The elements of one set that each rank has, by new number and by original number.
ghost use Rattle.std.specs.Prelude.{◌≡◌, ℕ, Bool, true, ◌<◌, ◌≤◌, ◌+◌, ◌^◌, ◌||◌, ◌&&◌, nat_eq, [], IfOk, OnOk, Some, Vec, length};
ghost use Rattle.std.specs.Prelude.{slice_index};
ghost use Rattle.std.specs.declared.alloc.Global.{Global as TheGlobal};
ghost use Rattle.lemmas.specs.Below.{listed, row};
ghost use Rattle.local_mesh.specs.RankSet.{has, has_at};
ghost use Rattle.local_mesh.specs.Local.{ordered};
ghost use Rattle.local_mesh.specs.Standing.{stands};

use crate::rank_sets::{RankSet, push_each};
use crate::types::Groups;
use op_num::OutOfMemory;
use std::alloc::Global;

/// How many elements each rank owns.
pub fn owned_counts(alloc: Global, owners: &[u32], ranks: u32) -> Result<Vec<usize>, OutOfMemory>
    requires { (x : ℕ) → x < length owners.now → slice_index owners.now x < ranks }
    ensures { IfOk result (λ v. length v.items ≡ ranks) }
{
    let mut counts = vec![in alloc; 0usize; ranks as usize]?;
    for owner in owners {
        counts[*owner as usize] += 1;
    }
    Ok(counts)
}

// How many numbers each list has.
fn lengths_of(alloc: Global, lists: &[Vec<u32>]) -> Result<Vec<usize>, OutOfMemory>
    ensures { IfOk result (λ v. length v.items ≡ length lists.now) }
{
    let mut lengths = Vec::with_capacity(alloc, lists.len())?;
    for list in lists {
        lengths.push(list.len())?;
    }
    Ok(lengths)
}

/// Empty lists, with room for so many numbers each.
pub fn lists_with_room(alloc: Global, rooms: &[usize]) -> Result<Vec<Vec<u32>>, OutOfMemory>
    ensures length { IfOk result (λ v. length v.items ≡ length rooms.now) }
    ensures empty { IfOk result (λ v. (r : ℕ) → r < length rooms.now → row v.items r ≡ []) }
{
    let mut lists = Vec::with_capacity(alloc, rooms.len())?;
    for room in rooms {
        lists.push(Vec::with_capacity(alloc, *room)?)?;
    }
    Ok(lists)
}

// Adds ranks to the sets of these elements.
#[tactic(auto, unfolding(crate::specs::Standing::stands))]
fn add_to_each(sets: &mut [RankSet], elements: &[u32], ranks: RankSet)
    requires { (k : ℕ) → k < length elements.now → slice_index elements.now k < length sets.old }
    ensures { (x r : ℕ) → has_at sets.new x r ≡ (has_at sets.old x r || (has ranks r && stands elements.now x)) }
{
    for element in elements {
        let at = *element as usize;
        sets[at] = sets[at].union(ranks);
    }
}

// Adds each rank to the sets of the elements of its list.
fn add_ranks(sets: &mut [RankSet], lists: &[Vec<u32>])
    requires few { length lists.now ≤ 64 }
    requires within { (r k : ℕ) → r < length lists.now → k < length (row lists.now r) → slice_index (row lists.now r) k < length sets.old }
    ensures { (x r : ℕ) → has_at sets.new x r ≡ (has_at sets.old x r || stands (row lists.now r) x) }
{
    for (rank, elements) in lists.iter().enumerate() {
        add_to_each(sets, elements, RankSet::empty().with(rank as u32));
    }
}

// For each element the ranks whose lists have it.
fn ranks_listing(alloc: Global, lists: &[Vec<u32>], size: u32) -> Result<Vec<RankSet>, OutOfMemory>
    requires few { length lists.now ≤ 64 }
    requires within { (r k : ℕ) → r < length lists.now → k < length (row lists.now r) → slice_index (row lists.now r) k < size }
    ensures length { IfOk result (λ v. length v.items ≡ size) }
    ensures has { IfOk result (λ v. (x r : ℕ) → has_at v.items x r ≡ stands (row lists.now r) x) }
{
    let mut sets = vec![in alloc; RankSet::empty(); size as usize]?;
    add_ranks(&mut sets, lists);
    Ok(sets)
}

/// Puts each element, in the given order, into the list of its owner.
pub fn push_owned(lists: &mut [Vec<u32>], owners: &[u32], order: &[u32]) -> Result<(), OutOfMemory>
    requires few { length lists.old ≤ 64 }
    requires owners { (x : ℕ) → x < length owners.now → slice_index owners.now x < length lists.old }
    requires order { (j : ℕ) → j < length order.now → slice_index order.now j < length owners.now }
    requires none { (r : ℕ) → r < length lists.old → row lists.old r ≡ [] }
    ensures { OnOk result ((r : ℕ) → r < length lists.old
        → row lists.new r ≡ ordered (length order.now) (slice_index order.now) (λ x. nat_eq (slice_index owners.now x) r)) }
{
    for element in order {
        let owner = owners[*element as usize];
        push_each(lists, *element, RankSet::empty().with(owner))?;
    }
    Ok(())
}

// Puts each element, in the given order, into the lists of the ranks of its set.
fn push_listed(lists: &mut [Vec<u32>], sets: &[RankSet], order: &[u32]) -> Result<(), OutOfMemory>
    requires few { length lists.old ≤ 64 }
    requires below { (x r : ℕ) → r < 64 → has_at sets.now x r ≡ true → r < length lists.old }
    requires order { (j : ℕ) → j < length order.now → slice_index order.now j < length sets.now }
    requires none { (r : ℕ) → r < length lists.old → row lists.old r ≡ [] }
    ensures { OnOk result ((r : ℕ) → r < length lists.old
        → row lists.new r ≡ ordered (length order.now) (slice_index order.now) (λ x. has_at sets.now x r)) }
{
    for element in order {
        push_each(lists, *element, sets[*element as usize])?;
    }
    Ok(())
}

// Puts each element, by number, into the lists of its owner and of the ranks of its two sets.
fn push_copies(
    lists: &mut [Vec<u32>],
    owners: &[u32],
    exec_sets: &[RankSet],
    nonexec_sets: &[RankSet],
) -> Result<(), OutOfMemory>
    requires few { length lists.old ≤ 64 }
    requires size { length owners.now < 2 ^ 32 }
    requires owners { (x : ℕ) → x < length owners.now → slice_index owners.now x < length lists.old }
    requires exec_count { length exec_sets.now ≡ length owners.now }
    requires exec_below { (x r : ℕ) → r < 64 → has_at exec_sets.now x r ≡ true → r < length lists.old }
    requires nonexec_count { length nonexec_sets.now ≡ length owners.now }
    requires nonexec_below { (x r : ℕ) → r < 64 → has_at nonexec_sets.now x r ≡ true → r < length lists.old }
    requires none { (r : ℕ) → r < length lists.old → row lists.old r ≡ [] }
    ensures { OnOk result ((r : ℕ) → r < length lists.old
        → row lists.new r ≡ listed (length owners.now) (λ x. nat_eq (slice_index owners.now x) r
        || (has_at exec_sets.now x r || has_at nonexec_sets.now x r))) }
{
    for (element, owner) in owners.iter().enumerate() {
        let imported = exec_sets[element].union(nonexec_sets[element]);
        push_each(lists, element as u32, imported.with(*owner))?;
    }
    Ok(())
}

/// By rank what it owns, imports to execute and imports to read of a set, and all of these; `order` has the original
/// numbers by new number.
pub fn groups_by_rank(
    alloc: Global,
    owners: &[u32],
    exec: &[Vec<u32>],
    nonexec: &[Vec<u32>],
    order: &[u32],
    ranks: u32,
) -> Result<Groups, OutOfMemory>
    requires few { ranks ≤ 64 }
    requires size { length owners.now < 2 ^ 32 }
    requires owners { (x : ℕ) → x < length owners.now → slice_index owners.now x < ranks }
    requires exec_count { length exec.now ≡ ranks }
    requires exec { (r k : ℕ) → r < ranks → k < length (row exec.now r) → slice_index (row exec.now r) k < length owners.now }
    requires nonexec_count { length nonexec.now ≡ ranks }
    requires nonexec { (r k : ℕ) → r < ranks → k < length (row nonexec.now r) → slice_index (row nonexec.now r) k < length owners.now }
    requires order { (j : ℕ) → j < length order.now → slice_index order.now j < length owners.now }
    ensures own_count { IfOk result (λ t. length t.own.items ≡ ranks) }
    ensures own { IfOk result (λ t. (r : ℕ) → r < ranks
        → row t.own.items r ≡ ordered (length order.now) (slice_index order.now) (λ x. nat_eq (slice_index owners.now x) r)) }
    ensures exec_count { IfOk result (λ t. length t.exec.items ≡ ranks) }
    ensures exec { IfOk result (λ t. (r : ℕ) → r < ranks
        → row t.exec.items r ≡ ordered (length order.now) (slice_index order.now) (λ x. stands (row exec.now r) x)) }
    ensures nonexec_count { IfOk result (λ t. length t.nonexec.items ≡ ranks) }
    ensures nonexec { IfOk result (λ t. (r : ℕ) → r < ranks
        → row t.nonexec.items r ≡ ordered (length order.now) (slice_index order.now) (λ x. stands (row nonexec.now r) x)) }
    ensures copies { IfOk result (λ t. (c : Vec (Vec ℕ TheGlobal) TheGlobal) × (t.copies ≡ Some c) × (length c.items ≡ ranks)
        × ((r : ℕ) → r < ranks → row c.items r ≡ listed (length owners.now) (λ x. nat_eq (slice_index owners.now x) r
        || (stands (row exec.now r) x || stands (row nonexec.now r) x)))) }
{
    let size = owners.len() as u32;
    let exec_sets = ranks_listing(alloc, exec, size)?;
    let nonexec_sets = ranks_listing(alloc, nonexec, size)?;
    let counts = owned_counts(alloc, owners, ranks)?;
    let exec_counts = lengths_of(alloc, exec)?;
    let nonexec_counts = lengths_of(alloc, nonexec)?;
    let mut own = lists_with_room(alloc, &counts)?;
    let mut executed = lists_with_room(alloc, &exec_counts)?;
    let mut read = lists_with_room(alloc, &nonexec_counts)?;
    let mut copies = lists_with_room(alloc, &counts)?;
    push_owned(&mut own, owners, order)?;
    push_listed(&mut executed, &exec_sets, order)?;
    push_listed(&mut read, &nonexec_sets, order)?;
    push_copies(&mut copies, owners, &exec_sets, &nonexec_sets)?;
    Ok(Groups {
        own,
        exec: executed,
        nonexec: read,
        copies: Some(copies),
    })
}

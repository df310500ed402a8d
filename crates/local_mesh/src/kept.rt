// The groups of a set whose elements keep their numbers.
ghost use Rattle.std.specs.Prelude.{◌≡◌, ℕ, ◌<◌, ◌≤◌, ◌↔◌, IsTrue, None, nat_eq, IfOk, length, slice_index};
ghost use Rattle.lemmas.specs.Below.{row};
ghost use Rattle.local_mesh.specs.Local.{ordered};
ghost use Rattle.local_mesh.specs.Parts.{IsKept};

use crate::groups::{lists_with_room, owned_counts, push_owned};
use crate::types::Groups;
use op_num::OutOfMemory;
use std::alloc::Global;

/// Whether each new number is the original one.
pub fn is_kept(order: &[u32]) -> bool
    ensures { IsTrue result ↔ IsKept (length order.now) (slice_index order.now) }
{
    for (number, original) in order.iter().enumerate() {
        if number != *original as usize {
            return false;
        }
    }
    true
}

// The same lists.
fn copied(alloc: Global, lists: &[Vec<u32>]) -> Result<Vec<Vec<u32>>, OutOfMemory>
    ensures length { IfOk result (λ v. length v.items ≡ length lists.now) }
    ensures same { IfOk result (λ v. (r : ℕ) → r < length lists.now → row v.items r ≡ row lists.now r) }
{
    let mut copies = Vec::with_capacity(alloc, lists.len())?;
    for list in lists {
        copies.push(Vec::from_slice(alloc, list)?)?;
    }
    Ok(copies)
}

/// By rank what it owns, and what it imports to execute and to read of a set, where new numbers are the original ones.
/// It takes time linear in the elements and what is imported.
pub fn kept_groups(
    alloc: Global,
    owners: &[u32],
    exec: &[Vec<u32>],
    nonexec: &[Vec<u32>],
    order: &[u32],
    ranks: u32,
) -> Result<Groups, OutOfMemory>
    requires few { ranks ≤ 64 }
    requires owners { (x : ℕ) → x < length owners.now → slice_index owners.now x < ranks }
    requires order { (j : ℕ) → j < length order.now → slice_index order.now j < length owners.now }
    ensures own_count { IfOk result (λ t. length t.own.items ≡ ranks) }
    ensures own { IfOk result (λ t. (r : ℕ) → r < ranks
        → row t.own.items r ≡ ordered (length order.now) (slice_index order.now) (λ x. nat_eq (slice_index owners.now x) r)) }
    ensures exec_count { IfOk result (λ t. length t.exec.items ≡ length exec.now) }
    ensures exec { IfOk result (λ t. (r : ℕ) → r < length exec.now → row t.exec.items r ≡ row exec.now r) }
    ensures nonexec_count { IfOk result (λ t. length t.nonexec.items ≡ length nonexec.now) }
    ensures nonexec { IfOk result (λ t. (r : ℕ) → r < length nonexec.now → row t.nonexec.items r ≡ row nonexec.now r) }
    ensures copies { IfOk result (λ t. t.copies ≡ None) }
{
    let counts = owned_counts(alloc, owners, ranks)?;
    let mut own = lists_with_room(alloc, &counts)?;
    push_owned(&mut own, owners, order)?;
    let exec = copied(alloc, exec)?;
    let nonexec = copied(alloc, nonexec)?;
    Ok(Groups {
        own,
        exec,
        nonexec,
        copies: None,
    })
}

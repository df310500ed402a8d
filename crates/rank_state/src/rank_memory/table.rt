// Which slot each open element has: a row of numbers for each rank, with one more than the slot for an open element,
// and else 0.

ghost use Rattle.std.specs.Prelude.{◌≡◌, ◌<◌, ◌≤◌, ◌+◌, ◌^◌, [], ℕ, length, map, replicate, slice_index_or, vec_len, vec_capacity};
ghost use Rattle.std.specs.Prelude.{None, Some, IfOk};
ghost use Rattle.rank_state.specs.Slots.{entry, entries, with_entry};

use std::alloc::{AllocError, Global};

/// A table of so many places for each rank, none of which has a slot.
pub fn nothing_open(alloc: Global, shape: &[usize]) -> Result<Vec<Vec<u32>>, AllocError>
    ensures { IfOk result (λ v. map (λ row. row.items) v.items ≡ map (λ n. replicate n 0) shape.now) }
{
    let mut table = Vec::with_capacity(alloc, shape.len())?;
    for n in shape {
        table.push(vec![in alloc; 0; *n]?)?;
    }
    Ok(table)
}

/// The slot of an element, where it is open.
pub fn slot_at(table: &[Vec<u32>], rank: u32, element: u32) -> Option<u32>
    requires rank { rank < length table.now }
    requires element { element < length (slice_index_or (map (λ row. row.items) table.now) rank []) }
    ensures { result ≡ entry (entries (map (λ row. row.items) table.now)) rank element }
{
    table[rank as usize][element as usize].checked_sub(1)
}

/// Gives an element its slot.
pub fn put_slot(table: &mut [Vec<u32>], rank: u32, element: u32, slot: u32)
    requires rank { rank < length table.old }
    requires element { element < length (slice_index_or (map (λ row. row.items) table.old) rank []) }
    requires small { slot + 1 < 2 ^ 32 }
    ensures { entries (map (λ row. row.items) table.new)
        ≡ with_entry rank element (Some slot) (entries (map (λ row. row.items) table.old)) }
{
    table[rank as usize][element as usize] = slot + 1;
}

/// Takes an element's slot from it.
pub fn take_slot(table: &mut [Vec<u32>], rank: u32, element: u32)
    requires rank { rank < length table.old }
    requires element { element < length (slice_index_or (map (λ row. row.items) table.old) rank []) }
    ensures { entries (map (λ row. row.items) table.new)
        ≡ with_entry rank element None (entries (map (λ row. row.items) table.old)) }
{
    table[rank as usize][element as usize] = 0;
}

/// The slots below `count`, in a vector with room for no more.
pub fn all_slots(alloc: Global, count: u32) -> Result<Vec<u32>, AllocError>
    ensures len { IfOk result (λ v. vec_len v ≡ count) }
    ensures room { IfOk result (λ v. count ≤ vec_capacity v) }
    ensures each { IfOk result (λ v. (i : ℕ) → i < count → slice_index_or v.items i 0 ≡ i) }
{
    let mut all = Vec::with_capacity(alloc, count as usize)?;
    for i in 0..count {
        all.push_reserved(i);
    }
    Ok(all)
}

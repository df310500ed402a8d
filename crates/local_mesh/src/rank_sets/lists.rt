// Lists of numbers, one for each rank.
ghost use Rattle.std.specs.Prelude.{◌≡◌, ℕ, Bool, false, true, ◌<◌, ◌≤◌, ◌^◌, ◌↔◌, ◌&&◌, ◌||◌, not, nat_eq, IsTrue, OnOk, IfOk, length};
ghost use Rattle.std.specs.Prelude.{cond, [], ◌∷◌, ◌++◌};
ghost use Rattle.lemmas.specs.Below.{listed, row};
ghost use Rattle.local_mesh.specs.RankSet.{has, has_at};

use crate::rank_sets::rank_set::RankSet;
use std::alloc::{AllocError, Global};

/// Appends a number to the list of each rank of a set.
pub fn push_each(lists: &mut [Vec<u32>], number: u32, ranks: RankSet) -> Result<(), AllocError>
    requires few { length lists.old ≤ 64 }
    requires ranks { (r : ℕ) → r < 64 → has ranks r ≡ true → r < length lists.old }
    ensures { OnOk result ((r : ℕ) → r < length lists.old → row lists.new r ≡ row lists.old r ++ cond (has ranks r) (number ∷ []) []) }
{
    let mut rest = ranks;
    while let Some(rank) = rest.first() {
        lists[rank as usize].push(number)?;
        rest = rest.without(rank);
    }
    Ok(())
}

/// Empty lists, as many as told.
pub fn empty_lists(alloc: Global, count: u32) -> Result<Vec<Vec<u32>>, AllocError>
    ensures length { IfOk result (λ v. length v.items ≡ count) }
    ensures empty { IfOk result (λ v. (r : ℕ) → r < count → row v.items r ≡ []) }
{
    let mut lists = Vec::new(alloc);
    for _rank in 0..count {
        lists.push(Vec::new(alloc))?;
    }
    Ok(lists)
}

/// For each rank the places of the sets that have it, in increasing order.
pub fn places_by_rank(
    alloc: Global,
    sets: &[RankSet],
    ranks: u32,
) -> Result<Vec<Vec<u32>>, AllocError>
    requires few { ranks ≤ 64 }
    requires length { length sets.now < 2 ^ 32 }
    requires below { (x r : ℕ) → x < length sets.now → r < 64 → has_at sets.now x r ≡ true → r < ranks }
    ensures length { IfOk result (λ v. length v.items ≡ ranks) }
    ensures lists { IfOk result (λ v. (r : ℕ) → r < ranks → row v.items r ≡ listed (length sets.now) (λ x. has_at sets.now x r)) }
{
    let mut lists = empty_lists(alloc, ranks)?;
    for (place, set) in sets.iter().enumerate() {
        push_each(&mut lists, place as u32, *set)?;
    }
    Ok(lists)
}

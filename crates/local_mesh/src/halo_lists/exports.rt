// Exports by owner and rank.
ghost use Rattle.std.specs.Prelude.{◌≡◌, ℕ, Bool, true, ◌<◌, ◌≤◌, ◌^◌, ◌&&◌, nat_eq, IfOk, OnOk, length, cond, [], ◌∷◌, ◌++◌};
ghost use Rattle.lemmas.specs.Below.{row, rows};
ghost use Rattle.local_mesh.specs.RankSet.{has};

use crate::rank_sets::{RankSet, empty_lists, push_each};
use op_num::OutOfMemory;
use std::alloc::Global;

/// Appends an element to its owner's list for each rank of a set.
pub fn push_export(
    exports: &mut [Vec<Vec<u32>>],
    owner: u32,
    element: u32,
    ranks: RankSet,
) -> Result<(), OutOfMemory>
    requires owner { owner < length exports.old }
    requires few { length exports.old ≤ 64 }
    requires lengths { (a : ℕ) → a < length exports.old → length (rows exports.old a) ≡ length exports.old }
    requires ranks { (r : ℕ) → r < 64 → has ranks r ≡ true → r < length exports.old }
    ensures lengths { OnOk result ((a : ℕ) → a < length exports.old → length (rows exports.new a) ≡ length exports.old) }
    ensures pushed { OnOk result ((a r : ℕ) → a < length exports.old → r < length exports.old
        → row (rows exports.new a) r ≡ row (rows exports.old a) r ++ cond (has ranks r && nat_eq owner a) (element ∷ []) []) }
{
    push_each(&mut exports[owner as usize], element, ranks)?;
    Ok(())
}

/// As many times empty lists as told, as many as told.
pub fn empty_exports(alloc: Global, count: u32) -> Result<Vec<Vec<Vec<u32>>>, OutOfMemory>
    ensures length { IfOk result (λ v. length v.items ≡ count) }
    ensures lengths { IfOk result (λ v. (a : ℕ) → a < count → length (rows v.items a) ≡ count) }
    ensures empty { IfOk result (λ v. (a r : ℕ) → a < count → r < count → row (rows v.items a) r ≡ []) }
{
    let mut exports = Vec::new(alloc);
    for _owner in 0..count {
        exports.push(empty_lists(alloc, count)?)?;
    }
    Ok(exports)
}

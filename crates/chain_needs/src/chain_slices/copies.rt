// Copies of sets of ranks.

ghost use Rattle.std.specs.Prelude.{◌≡◌, ◌<◌, ℕ, IfOk, length};
ghost use Rattle.local_mesh.specs.Sets.{sets_in};

use local_mesh::rank_sets::RankSet;
use op_num::OutOfMemory;
use std::alloc::Global;

/// A copy of lists of sets.
///
/// # Errors
/// Want of memory alone.
pub fn copy_sets(alloc: Global, sets: &[Vec<RankSet>]) -> Result<Vec<Vec<RankSet>>, OutOfMemory>
    ensures count { IfOk result (λ v. length v.items ≡ length sets.now) }
    ensures same { IfOk result (λ v. (d : ℕ) → sets_in v.items d ≡ sets_in sets.now d) }
{
    let mut copies = Vec::new(alloc);
    for list in sets {
        copies.push(Vec::from_slice(alloc, list)?)?;
    }
    Ok(copies)
}

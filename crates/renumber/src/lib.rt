//! New numbers for the elements of a mesh (`identity`, `cuthill_mckee`), the orders by breadth-first walks from which
//! they come (`breadth_order`), and lists of numbers one behind another in one array (`rows`).
#![tactic(auto)]

ghost use Rattle.std.specs.Prelude.{◌≡◌, ℕ, ◌<◌, IfOk, length, slice_index};
ghost use Rattle.mesh_decl.specs.Mesh.{map_count};
ghost use Rattle.renumber.specs.Identity.{IsIdentity};
ghost use Rattle.renumber.specs.CuthillMcKee.{IsCuthillMcKee};

pub mod breadth_order;
mod by_targets;
mod laws;
mod orders;
pub mod rows;

use crate::breadth_order::taking_order;
pub use laws::one_numbering;
use mesh_decl::{Mesh, Numbers, Perms};
use op_num::OutOfMemory;
use orders::{counting, reversed, set_order};
use std::alloc::Global;

/// The renumbering in which each element of each set keeps its number. It fails only for want of memory.
pub fn identity(alloc: Global, mesh: &Mesh) -> Result<Perms, OutOfMemory>
    ensures { IfOk result (IsIdentity mesh.now) }
{
    let mut sets = Vec::new(alloc);
    for set in 0..mesh.set_count() {
        sets.push(Numbers::new(counting(alloc, mesh.set_size(set))?))?;
    }
    Ok(Perms { sets })
}

/// The reverse renumbering of Cuthill and McKee by the map numbered `map`. The elements of the set to which it leads
/// stand in the reverse of the order in which they are taken; those of the set from which it leads, where that is
/// another, by (least new number among the targets, original number); all others keep their numbers. It takes time
/// n log n in the elements and in the pairs of targets of one element, and fails only for want of memory.
pub fn cuthill_mckee(alloc: Global, mesh: &Mesh, map: u32) -> Result<Perms, OutOfMemory>
    requires { map < map_count mesh.now }
    ensures { IfOk result (IsCuthillMcKee mesh.now map) }
{
    mesh.is_in_range();
    let taken = taking_order(alloc, mesh, map)?;
    let order = reversed(alloc, &taken)?;
    let mut sets = Vec::new(alloc);
    for set in 0..mesh.set_count() {
        sets.push(Numbers::new(set_order(alloc, mesh, map, &order, set)?))?;
    }
    Ok(Perms { sets })
}

// Chains by the lists of their loops.

ghost use Rattle.std.specs.Prelude.{◌≡◌, ◌<◌, ℕ, IfOk, IfSome, All, length, slice_index, slice_index_or};
ghost use Rattle.mesh_decl.specs.Owners.{AreOwners};
ghost use Rattle.bound_program.specs.Values.{bound_of};
ghost use Rattle.bound_program.specs.Fits.{SiteFits};
ghost use Rattle.chain_needs.specs.declared.chain_slices.shapes.Shape.{Shape as TheShape};
ghost use Rattle.chain_needs.specs.Shapes.{IsShape};

use crate::chain_slices::levels::{Level, front, levels_of};
use crate::chain_slices::lists::copies_of;
use crate::chain_slices::messages::messages_of;
use bound_program::Bound;
use mesh_decl::Owners;
use op_num::OutOfMemory;
use std::alloc::Global;

/// What is kept of a chain. Chains of the same loops have the same.
#[derive(Drop)]
pub struct Shape {
    /// Its loops, by number.
    pub sites: Vec<u32>,
    /// By loop, the last one's first.
    pub levels: Vec<Level>,
    /// By dat and rank, the elements of pairs that the rank needs at the chain's start and doesn't own, in increasing
    /// order.
    pub copies: Vec<Vec<Vec<u32>>>,
    /// How many messages its exchange has.
    pub messages: u64,
}

/// What is kept of a chain of these loops, of which there is at least one.
///
/// # Errors
/// Want of memory alone.
pub fn shape_of(
    alloc: Global,
    bound: &Bound,
    owners: &Owners,
    sites: Vec<u32>,
) -> Result<Shape, OutOfMemory>
    requires owners { AreOwners (bound_of bound.now).mesh owners.now }
    requires some { 0 < length sites.items }
    requires sites { (k : ℕ) → k < length sites.items → slice_index sites.items k < length (bound_of bound.now).sites }
    requires fits { All (SiteFits (bound_of bound.now)) (bound_of bound.now).sites }
    ensures is { IfOk result (IsShape (bound_of bound.now) owners.now) }
    ensures of { IfOk result (λ s. s.sites.items ≡ sites.items) }
{
    let levels = levels_of(alloc, bound, owners, &sites)?;
    let needed = front(&[], &levels);
    let copies = copies_of(alloc, bound, owners, needed)?;
    let messages = messages_of(alloc, bound, owners, needed)?;
    Ok(Shape {
        sites,
        levels,
        copies,
        messages,
    })
}

/// Which of the chains has these loops, if there is one.
pub fn find_shape(shapes: &[Shape], sites: &[u32]) -> Option<usize>
    ensures some { IfSome result (λ i. (i < length shapes.now)
        × ((s : TheShape) → (slice_index_or shapes.now i s).sites.items ≡ sites.now)) }
{
    for i in 0..shapes.len() {
        if shapes[i].sites.as_slice() == sites {
            return Some(i);
        }
    }
    None
}

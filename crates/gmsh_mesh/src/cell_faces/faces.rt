// Sides of the same face.
ghost use Rattle.std.specs.Prelude.{◌≡◌, ◌*◌, ◌<◌, ◌^◌, IfOk, IfErr, length};
ghost use Rattle.gmsh_mesh.specs.SideMates.{AreSideMates, AreSideClasses, IsSidesRefused};

use crate::cell_faces::ordering::sort_rows;
use crate::equal_keys::{MateRefusal, mates, row_classes};
use std::alloc::{AllocError, Global};

/// For each of `count` sides, at its place, the place of the other side that has the same nodes, in whatever order, or
/// its own where no other has them. The sides stand one behind another in `sides`, each of `width` nodes. `Third`
/// exactly where three sides or more have the same nodes, with the first place, from 0, that has two such sides in
/// front of it. It takes time n log n for each node of a side.
pub fn side_mates(
    alloc: Global,
    count: usize,
    width: usize,
    sides: &[u32],
) -> Result<Vec<u32>, MateRefusal>
    requires few { count < 2 ^ 32 }
    requires table { length sides.now ≡ count * width }
    ensures mates { IfOk result (λ of. AreSideMates sides.now width count of.items) }
    ensures refused { IfErr result (IsSidesRefused sides.now width count) }
{
    let classes = side_classes(alloc, count, width, sides)?;
    mates(alloc, &classes)
}

/// The class of each of `count` sides, at its place: sides that have the same nodes, in whatever order, have one class,
/// others have others, and each class is below `count`. The sides stand one behind another, each of `width` nodes. It
/// takes time n log n for each node of a side, and fails only for want of memory.
pub fn side_classes(
    alloc: Global,
    count: usize,
    width: usize,
    sides: &[u32],
) -> Result<Vec<u32>, AllocError>
    requires few { count < 2 ^ 32 }
    requires table { length sides.now ≡ count * width }
    ensures { IfOk result (λ of. AreSideClasses sides.now width count of.items) }
{
    let mut ordered = Vec::from_slice(alloc, sides)?;
    sort_rows(&mut ordered, count, width);
    row_classes(alloc, count, width, &ordered)
}

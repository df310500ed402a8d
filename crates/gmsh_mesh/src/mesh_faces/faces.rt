// Faces: sides of two cells, and sides of one.
ghost use Rattle.std.specs.Prelude.{◌≡◌, ◌+◌, ◌*◌, ◌<◌, ◌^◌, ℕ, List, OnOk, IfOk, length};
ghost use Rattle.gmsh_mesh.specs.FaceLists.{AreFaces};
ghost use Rattle.gmsh_mesh.specs.Sums.{AreMutual};

use std::alloc::{AllocError, Global};

/// The sides that stand for faces, by their places among all cells' sides, from 0, rising.
#[derive(Debug, Drop)]
pub struct Faces {
    /// The first of the two sides of each face of two cells.
    pub inner: Vec<u32>,
    /// The side of each face of one cell.
    pub outer: Vec<u32>,
}

/// The faces of all cells' sides: `mates` has for each side, at its place, the place of the other side of its face, or
/// its own where no other cell has it. It takes linear time, and fails only for want of memory.
pub fn find_faces(alloc: Global, mates: &[u32]) -> Result<Faces, AllocError>
    requires { length mates.now < 2 ^ 32 }
    ensures { IfOk result (λ f. AreFaces mates.now (length mates.now) f.inner.items f.outer.items) }
{
    let mut faces = Faces {
        inner: Vec::new(alloc),
        outer: Vec::new(alloc),
    };
    for side in 0..mates.len() {
        take_side(mates, side, &mut faces)?;
    }
    Ok(faces)
}

// Takes the side at a place, behind those that were taken.
fn take_side(mates: &[u32], side: usize, faces: &mut Faces) -> Result<(), AllocError>
    requires few { length mates.now < 2 ^ 32 }
    requires within { side < length mates.now }
    requires so_far { AreFaces mates.now side faces.old.inner.items faces.old.outer.items }
    ensures { OnOk result (AreFaces mates.now (side + 1) faces.new.inner.items faces.new.outer.items) }
{
    let mate = mates[side] as usize;
    if side < mate {
        faces.inner.push(side as u32)?;
        return Ok(());
    }
    if side == mate {
        faces.outer.push(side as u32)?;
        return Ok(());
    }
    Ok(())
}

/// A law: where each side is the mate of its mate, twice the faces of two cells and the faces of one are all sides.
pub fn sides_are_of_faces()
    ensures { (mates firsts alone : List ℕ) (n : ℕ) → AreMutual mates n → AreFaces mates n firsts alone
        → 2 * length firsts + length alone ≡ n }
{}

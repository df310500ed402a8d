// The cells of a rank's dats.
ghost use Rattle.std.specs.Prelude.{◌≡◌, ℕ, ◌<◌, ◌+◌, ◌*◌, ◌^◌, IfOk, length};
ghost use Rattle.mesh_decl.specs.Mesh.{set_count};
ghost use Rattle.local_mesh.specs.LocalMesh.{originals_in, AreBases};

use crate::types::LocalSet;
use mesh_decl::Mesh;
use op_num::OutOfMemory;
use std::alloc::{AllocError, Global};

/// The first cell of each dat, and how many cells there are.
pub fn first_cells(
    alloc: Global,
    mesh: &Mesh,
    sets: &[LocalSet],
) -> Result<(Vec<usize>, usize), OutOfMemory>
    requires count { length sets.now ≡ set_count mesh.now }
    requires few { (s : ℕ) → s < set_count mesh.now → length (originals_in sets.now s) < 2 ^ 32 }
    ensures { IfOk result (λ b. AreBases mesh.now sets.now b.0.items b.1) }
{
    let mut bases = Vec::new(alloc);
    let mut cells = 0usize;
    for dat in 0..mesh.dat_count() {
        let (set, dim) = mesh.dat_shape(dat);
        let copies = sets[set as usize].original.as_slice().len();
        let Some(end) = cells.checked_add(copies * dim as usize) else {
            return Err(AllocError);
        };
        bases.push(cells)?;
        cells = end;
    }
    Ok((bases, cells))
}

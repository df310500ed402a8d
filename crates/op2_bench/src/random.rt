// A map with random targets.
ghost use Rattle.std.specs.Prelude.{◌<◌, ◌≤◌};

use mesh_decl::Mesh;
use op_num::{Name, OutOfMemory};
use std::alloc::{AllocError, Global};

// Random elements below `to`, by a linear congruential generator (Knuth's MMIX).
fn random_targets(alloc: Global, to: u32, count: usize) -> Result<Vec<i32>, OutOfMemory>
    requires some { 0 < to }
    requires few { to ≤ 16777216 }
{
    let mut targets = Vec::with_capacity(alloc, count)?;
    let mut state = 1u64;
    for _place in 0..count {
        state = state
            .wrapping_mul(6364136223846793005)
            .wrapping_add(1442695040888963407);
        targets.push(((state >> 33) % to as u64) as i32)?;
    }
    Ok(targets)
}

fn name(alloc: Global, bytes: &[u8]) -> Result<Name, OutOfMemory> {
    Ok(Name::new(Vec::from_slice(alloc, bytes)?))
}

/// The sets `cells` and `edges` of these sizes, and the map `ends` from edges to `dim` random cells of each.
#[tactic(auto, unfolding(mesh_decl::specs::Mesh::size_in))]
pub fn random(alloc: Global, edges: u32, cells: u32, dim: u32) -> Result<Mesh, OutOfMemory>
    requires some { 0 < cells }
    requires few { cells ≤ 16777216 }
    requires some_targets { 0 < dim }
{
    let count = edges as usize * dim as usize;
    let ends = random_targets(alloc, cells, count)?;
    let mut mesh = Mesh::new(alloc);
    if ends.len() != count {
        return Ok(mesh);
    }
    mesh.add_set(name(alloc, b"cells")?, cells)?;
    mesh.add_set(name(alloc, b"edges")?, edges)?;
    if mesh
        .add_map(name(alloc, b"ends")?, 1, 0, dim, ends)
        .is_err()
    {
        return Err(AllocError);
    }
    Ok(mesh)
}

// Whether owners fit a mesh.
ghost use Rattle.std.specs.Prelude.{◌≡◌, ℕ, ◌<◌, ◌↔◌, IsTrue, length, slice_index};
ghost use Rattle.mesh_decl.specs.Owners.{AreOwners};

use mesh_decl::{Mesh, Owners};

// Whether there is a rank below `ranks` for each of `size` elements.
fn set_fits(size: u32, ranks: u32, owners: &[u32]) -> bool
    ensures { IsTrue result ↔ ((length owners.now ≡ size) × ((x : ℕ) → x < size → slice_index owners.now x < ranks)) }
{
    if owners.len() != size as usize {
        return false;
    }
    for owner in owners {
        if *owner >= ranks {
            return false;
        }
    }
    true
}

/// Whether `owners` fit a mesh: there are 1 to 64 ranks, and each element of each set has one of them.
pub fn owners_fit(mesh: &Mesh, owners: &Owners) -> bool
    ensures { IsTrue result ↔ AreOwners mesh.now owners.now }
{
    let count = mesh.set_count();
    if owners.ranks == 0 || owners.ranks > 64 || owners.sets.len() != count as usize {
        return false;
    }
    for set in 0..count {
        if !set_fits(mesh.set_size(set), owners.ranks, owners.of_set(set)) {
            return false;
        }
    }
    true
}

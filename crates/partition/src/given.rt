// Whether given owners fit a mesh.
ghost use Rattle.std.specs.Prelude.{◌≡◌, ◌↔◌, ℕ, true, ◌<◌, IsTrue, is_some, length, slice_index};
ghost use Rattle.partition.specs.Derive.{AreGiven, given_list};

use mesh_decl::Mesh;

// Whether there is a rank below `ranks` for each of `size` elements.
fn list_fits(size: u32, ranks: u32, owners: &[u32]) -> bool
    ensures { IsTrue result ↔ ((length owners.now ≡ size) × ((x : ℕ) → x < size → slice_index owners.now x < ranks)) }
{
    if owners.len() != size as usize {
        return false;
    }
    for owner in owners {
        if *owner >= ranks {
            return false;
        }
    }
    true
}

// Whether an entry, if it has owners, has a rank below `ranks` for each of `size` elements.
fn entry_fits(size: u32, ranks: u32, entry: &Option<Vec<u32>>) -> bool
    ensures { IsTrue result
        ↔ (is_some entry.now ≡ true → (length (given_list entry.now) ≡ size)
        × ((x : ℕ) → x < size → slice_index (given_list entry.now) x < ranks)) }
{
    match entry {
        Some(owners) => list_fits(size, ranks, owners),
        None => true,
    }
}

/// Whether `derive` takes these lists for `ranks` ranks: there is an entry for each set of the mesh, and each list has
/// a rank below `ranks` for each element of its set.
pub fn given_fits(mesh: &Mesh, ranks: u32, given: &[Option<Vec<u32>>]) -> bool
    ensures { IsTrue result ↔ AreGiven mesh.now ranks given.now }
{
    let count = mesh.set_count();
    if given.len() != count as usize {
        return false;
    }
    for set in 0..count {
        if !entry_fits(mesh.set_size(set), ranks, &given[set as usize]) {
            return false;
        }
    }
    true
}

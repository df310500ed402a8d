// How many elements each rank imports from each other.

ghost use Rattle.std.specs.Prelude.{◌≡◌, ◌<◌, ℕ, IfOk, length, slice_index};
ghost use Rattle.mesh_decl.specs.Mesh.{set_count};
ghost use Rattle.schedule_check.specs.Mail.{imported_from, AreDistinct};
ghost use Rattle.plan_counts.specs.Imports.{AreOfSet, AreImports};

use local_mesh::RankMesh;
use mesh_decl::Mesh;
use op_num::OutOfMemory;
use schedule_check::imported_count;
use std::alloc::Global;

// By receiver, how many elements of a set it imports that the sender owns.
fn imports_from(
    alloc: Global,
    mesh: &Mesh,
    ranks: &[RankMesh],
    from: usize,
    set: u32,
) -> Result<Vec<u64>, OutOfMemory>
    requires ranks { AreDistinct mesh.now ranks.now }
    requires from { from < length ranks.now }
    requires set { set < set_count mesh.now }
    ensures { IfOk result (λ v. (r : ℕ) → r < length ranks.now → slice_index v.items r ≡ imported_from ranks.now from r set) }
{
    let mut row = Vec::new(alloc);
    for to in 0..ranks.len() {
        row.push(imported_count(mesh, ranks, from, to, set))?;
    }
    Ok(row)
}

// The same by sender.
fn imports_within(
    alloc: Global,
    mesh: &Mesh,
    ranks: &[RankMesh],
    set: u32,
) -> Result<Vec<Vec<u64>>, OutOfMemory>
    requires ranks { AreDistinct mesh.now ranks.now }
    requires set { set < set_count mesh.now }
    ensures { IfOk result (λ v. AreOfSet ranks.now set v.items) }
{
    let mut rows = Vec::new(alloc);
    for from in 0..ranks.len() {
        rows.push(imports_from(alloc, mesh, ranks, from, set)?)?;
    }
    Ok(rows)
}

/// By set, sender and receiver, how many elements of the set the receiver imports that the sender owns. It takes time
/// linear in what the ranks import, for each sender. An error is want of memory.
pub fn all_imports(
    alloc: Global,
    mesh: &Mesh,
    ranks: &[RankMesh],
) -> Result<Vec<Vec<Vec<u64>>>, OutOfMemory>
    requires { AreDistinct mesh.now ranks.now }
    ensures { IfOk result (λ v. AreImports mesh.now ranks.now v.items) }
{
    let mut sets = Vec::new(alloc);
    for set in 0..mesh.set_count() {
        sets.push(imports_within(alloc, mesh, ranks, set)?)?;
    }
    Ok(sets)
}

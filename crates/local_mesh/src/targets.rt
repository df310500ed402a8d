// Local targets.
ghost use Rattle.std.specs.Prelude.{◌≡◌, ℕ, ◌<◌, ◌≤◌, ◌+◌, ◌*◌, IfOk, OnOk, length, slice_index};
ghost use Rattle.lemmas.specs.Below.{row};
ghost use Rattle.mesh_decl.specs.Mesh.{set_count, map_count, set_size, map_from, map_to, map_dim, target, IsMapAt};
ghost use Rattle.local_mesh.specs.LocalMesh.{AreClosed, AreLocalTargets};

use crate::originals::number_locals;
use crate::types::LocalSet;
use mesh_decl::Mesh;
use op_num::OutOfMemory;
use std::alloc::Global;

// Appends the local numbers of one element's targets.
fn push_targets(
    table: &mut Vec<u32>,
    mesh: &Mesh,
    map: u32,
    element: u32,
    numbers: &[u32],
) -> Result<(), OutOfMemory>
    requires map { map < map_count mesh.now }
    requires element { element < set_size mesh.now (map_from mesh.now map) }
    requires numbers { set_size mesh.now (map_to mesh.now map) ≤ length numbers.now }
    ensures length { OnOk result (length table.new.items ≡ length table.old.items + map_dim mesh.now map) }
    ensures before { OnOk result ((k : ℕ) → k < length table.old.items → slice_index table.new.items k ≡ slice_index table.old.items k) }
    ensures targets { OnOk result ((i : ℕ) → i < map_dim mesh.now map
        → slice_index table.new.items (length table.old.items + i) ≡ slice_index numbers.now (target mesh.now map element i)) }
{
    let (_, _, dim) = mesh.map_ends(map);
    for place in 0..dim {
        table.push(numbers[mesh.target(map, element, place) as usize])?;
    }
    Ok(())
}

// The local numbers of these elements' targets.
fn local_targets(
    alloc: Global,
    mesh: &Mesh,
    map: u32,
    elements: &[u32],
    numbers: &[u32],
) -> Result<Vec<u32>, OutOfMemory>
    requires map { map < map_count mesh.now }
    requires elements { (k : ℕ) → k < length elements.now → slice_index elements.now k < set_size mesh.now (map_from mesh.now map) }
    requires numbers { set_size mesh.now (map_to mesh.now map) ≤ length numbers.now }
    ensures length { IfOk result (λ v. length v.items ≡ length elements.now * map_dim mesh.now map) }
    ensures targets { IfOk result (λ v. (k i : ℕ) → k < length elements.now → i < map_dim mesh.now map
        → slice_index v.items (k * map_dim mesh.now map + i)
        ≡ slice_index numbers.now (target mesh.now map (slice_index elements.now k) i)) }
{
    let (_, _, dim) = mesh.map_ends(map);
    let mut table = Vec::with_capacity(alloc, elements.len().saturating_mul(dim as usize))?;
    for element in elements {
        push_targets(&mut table, mesh, map, *element, numbers)?;
    }
    Ok(table)
}

// The local targets by one map of what a rank executes. What is in `scratch` is lost.
fn local_map(
    alloc: Global,
    mesh: &Mesh,
    map: u32,
    sets: &[LocalSet],
    scratch: &mut [u32],
) -> Result<Vec<u32>, OutOfMemory>
    requires at { IsMapAt mesh.now map }
    requires map { map < map_count mesh.now }
    requires closed { AreClosed mesh.now sets.now }
    requires scratch { (s : ℕ) → s < set_count mesh.now → set_size mesh.now s ≤ length scratch.old }
    ensures { IfOk result (λ v. AreLocalTargets mesh.now map sets.now v.items) }
{
    let (from, to, _) = mesh.map_ends(map);
    number_locals(scratch, sets[to as usize].original.as_slice());
    let here = &sets[from as usize];
    let executed = here.own as usize + here.exec as usize;
    let elements = here.original.as_slice();
    let table = local_targets(alloc, mesh, map, &elements[..executed], scratch)?;
    Ok(table)
}

/// The local targets by each map of what a rank executes. What is in `scratch` is lost.
pub fn local_maps(
    alloc: Global,
    mesh: &Mesh,
    sets: &[LocalSet],
    scratch: &mut [u32],
) -> Result<Vec<Vec<u32>>, OutOfMemory>
    requires closed { AreClosed mesh.now sets.now }
    requires scratch { (s : ℕ) → s < set_count mesh.now → set_size mesh.now s ≤ length scratch.old }
    ensures count { IfOk result (λ v. length v.items ≡ map_count mesh.now) }
    ensures maps { IfOk result (λ v. (m : ℕ) → m < map_count mesh.now → AreLocalTargets mesh.now m sets.now (row v.items m)) }
{
    let mut maps = Vec::new(alloc);
    for map in 0..mesh.map_count() {
        maps.push(local_map(alloc, mesh, map, sets, scratch)?)?;
    }
    Ok(maps)
}

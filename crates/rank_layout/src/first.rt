// The cells of each rank and of the variables before the first step.

ghost use Rattle.std.specs.Prelude.{◌≡◌, ◌<◌, ◌≤◌, ◌+◌, ◌*◌, ◌++◌, ℕ, All, map, length, slice_index, take, drop};
ghost use Rattle.std.specs.Prelude.{vec_len, vec_capacity, IfOk, OnOk};
ghost use Rattle.std.specs.List.{flat_map};
ghost use Rattle.mesh_decl.specs.Mesh.{dat_count};
ghost use Rattle.local_mesh.specs.LocalMesh.{originals_in, AreClosed};
ghost use Rattle.bound_program.specs.Values.{var_of};
ghost use Rattle.rank_layout.specs.First.{rank_values, first_cells, first_variables};

use bound_program::Var;
use local_mesh::{LocalSet, RankMesh};
use mesh_decl::Mesh;
use op_num::OutOfMemory;
use std::alloc::Global;

// Of one set, the original numbers of a rank's elements, by local number.
fn originals_of(sets: &[LocalSet], set: u32) -> &[u32]
    requires { set < length sets.now }
    ensures { result.now ≡ originals_in sets.now set }
{
    sets[set as usize].original.as_slice()
}

// How many elements from this place on follow one another, each with the next number.
fn stretch_at(elements: &[u32], place: usize) -> usize
    requires { place < length elements.now }
    ensures some { 0 < result }
    ensures within { place + result ≤ length elements.now }
    ensures next { (k : ℕ) → k < result → slice_index elements.now (place + k) ≡ slice_index elements.now place + k }
{
    let rest = &elements[place..];
    let first = rest[0] as usize;
    for (count, element) in rest.iter().enumerate() {
        if *element as usize != first + count {
            return count;
        }
    }
    rest.len()
}

// The values of so many elements from one on, each of which has `dim` of them.
fn values_from(values: &[i32], dim: usize, first: usize, count: usize) -> &[i32]
    requires { first * dim + count * dim ≤ length values.now }
    ensures { result.now ≡ take (count * dim) (drop (first * dim) values.now) }
{
    let begin = first * dim;
    let end = begin + count * dim;
    &values[begin..end]
}

// Puts down the values of the elements, each of which has `dim` of them; those of elements that follow one another
// stand together. An error is want of memory.
fn push_elements(
    values: &[i32],
    dim: usize,
    elements: &[u32],
    cells: &mut Vec<i32>,
) -> Result<(), OutOfMemory>
    requires { All (λ x. x * dim + dim ≤ length values.now) elements.now }
    ensures { OnOk result (cells.new.items
        ≡ cells.old.items ++ flat_map (λ x. take dim (drop (x * dim) values.now)) elements.now) }
{
    let mut done = 0;
    while done < elements.len() {
        let count = stretch_at(elements, done);
        let first = elements[done] as usize;
        cells.extend_from_slice(values_from(values, dim, first, count))?;
        done += count;
    }
    Ok(())
}

// Puts down a dat's values on a rank. An error is want of memory.
fn push_dat(mesh: &Mesh, part: &RankMesh, dat: u32, cells: &mut Vec<i32>) -> Result<(), OutOfMemory>
    requires dat { dat < dat_count mesh.now }
    requires closed { AreClosed mesh.now part.now.sets.items }
    ensures { OnOk result (cells.new.items ≡ cells.old.items ++ rank_values mesh.now part.now dat) }
{
    mesh.dat_count();
    let (set, dim) = mesh.dat_shape(dat);
    let elements = originals_of(&part.sets, set);
    push_elements(mesh.dat_values(dat), dim as usize, elements, cells)
}

// The first cells of a rank, with spare capacity for so many more. An error is want of memory.
fn rank_cells(
    alloc: Global,
    mesh: &Mesh,
    part: &RankMesh,
    spare: usize,
) -> Result<Vec<i32>, OutOfMemory>
    requires { AreClosed mesh.now part.now.sets.items }
    ensures cells { IfOk result (λ v. v.items ≡ first_cells mesh.now part.now) }
    ensures spare { IfOk result (λ v. vec_len v + spare ≤ vec_capacity v) }
{
    let mut cells = Vec::with_capacity(alloc, part.cells.saturating_add(spare))?;
    for dat in 0..mesh.dat_count() {
        push_dat(mesh, part, dat, &mut cells)?;
    }
    // takes no more memory where the part counts its cells right
    cells.reserve_exact(spare)?;
    Ok(cells)
}

/// The cells of each rank before the first step: in every copy its element's values in the mesh. Behind them there is
/// spare capacity for so many more cells.
///
/// # Errors
/// Want of memory alone.
pub fn first_memories(
    alloc: Global,
    mesh: &Mesh,
    parts: &[RankMesh],
    spare: usize,
) -> Result<Vec<Vec<i32>>, OutOfMemory>
    requires { All (λ (m : _). AreClosed mesh.now m.sets.items) parts.now }
    ensures cells { IfOk result (λ v. map (λ x. x.items) v.items ≡ map (first_cells mesh.now) parts.now) }
    ensures spare { IfOk result (λ v. All (λ x. vec_len x + spare ≤ vec_capacity x) v.items) }
{
    let mut memories = Vec::with_capacity(alloc, parts.len())?;
    for part in parts {
        memories.push(rank_cells(alloc, mesh, part, spare)?)?;
    }
    Ok(memories)
}

/// The cells of all variables before the first step, one variable after another.
///
/// # Errors
/// Want of memory alone.
pub fn first_variables(alloc: Global, vars: &[Var]) -> Result<Vec<i32>, OutOfMemory>
    ensures { IfOk result (λ v. v.items ≡ first_variables (map var_of vars.now)) }
{
    let mut cells = Vec::new(alloc);
    for var in vars {
        cells.extend_from_slice(var.start.as_slice())?;
    }
    Ok(cells)
}

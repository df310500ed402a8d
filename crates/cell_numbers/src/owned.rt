// The number of each element of a set: what a rank has of it.
ghost use Rattle.std.specs.Prelude.{◌≡◌, ◌<◌, ℕ, length, map, slice_index, IfOk};
ghost use Rattle.mesh_decl.specs.Mesh.{set_count, set_size};
ghost use Rattle.mesh_decl.specs.Owners.{AreOwners};
ghost use Rattle.local_mesh.specs.Halos.{AreHalos};
ghost use Rattle.lemmas.specs.Below.{row};
ghost use Rattle.cell_numbers.specs.Numbers.{part_of};
ghost use Rattle.cell_numbers.specs.Marks.{AllBelow, marked, own_or_other, exec_in, nonexec_in};

use local_mesh::halo_lists::Halos;
use mesh_decl::{Mesh, Owners};
use op_num::OutOfMemory;
use std::alloc::Global;

// What stands for an element that a rank owns, imports to execute and to read, and for any other.
const OWNED: u32 = 0;

const EXECUTED: u32 = 1;

const READ: u32 = 2;

const OTHER: u32 = 3;

// These numbers by element, where each of these elements has another.
fn marked(numbers: Vec<u32>, elements: &[u32], number: u32) -> Vec<u32>
    requires { AllBelow elements.now (length numbers.items) }
    ensures length { length result.items ≡ length numbers.items }
    ensures marked { (x : ℕ) → slice_index result.items x ≡ marked elements.now number (slice_index numbers.items x) x }
{
    let mut numbers = numbers;
    for element in elements {
        numbers[*element as usize] = number;
    }
    numbers
}

// By element, whether a rank owns it, as a number.
fn own_parts(alloc: Global, owners: &[u32], rank: u32) -> Result<Vec<u32>, OutOfMemory>
    ensures { IfOk result (λ v. v.items ≡ map (own_or_other rank) owners.now) }
{
    let mut numbers = Vec::with_capacity(alloc, owners.len())?;
    for owner in owners {
        numbers.push(if *owner == rank { OWNED } else { OTHER })?;
    }
    Ok(numbers)
}

// What a rank imports to execute of a set.
fn executed_by(halos: &Halos, set: u32, rank: u32) -> &[u32]
    requires set { set < length halos.now.sets.items }
    requires rank { rank < length (exec_in halos.now set) }
    ensures { result.now ≡ row (exec_in halos.now set) rank }
{
    let halo = &halos.sets[set as usize];
    &halo.exec[rank as usize]
}

// What a rank imports to read of a set.
fn read_by(halos: &Halos, set: u32, rank: u32) -> &[u32]
    requires set { set < length halos.now.sets.items }
    requires rank { rank < length (nonexec_in halos.now set) }
    ensures { result.now ≡ row (nonexec_in halos.now set) rank }
{
    let halo = &halos.sets[set as usize];
    &halo.nonexec[rank as usize]
}

/// By element of a set, what a rank has of it.
pub fn parts_of(
    alloc: Global,
    mesh: &Mesh,
    owners: &Owners,
    halos: &Halos,
    set: u32,
    rank: u32,
) -> Result<Vec<u32>, OutOfMemory>
    requires owners { AreOwners mesh.now owners.now }
    requires halos { AreHalos mesh.now owners.now halos.now }
    requires set { set < set_count mesh.now }
    requires rank { rank < owners.now.ranks }
    ensures count { IfOk result (λ v. length v.items ≡ set_size mesh.now set) }
    ensures parts { IfOk result (λ v. (x : ℕ) → x < set_size mesh.now set
        → slice_index v.items x ≡ part_of mesh.now owners.now set x rank) }
{
    let owned = own_parts(alloc, owners.of_set(set), rank)?;
    let executed = marked(owned, executed_by(halos, set, rank), EXECUTED);
    Ok(marked(executed, read_by(halos, set, rank), READ))
}

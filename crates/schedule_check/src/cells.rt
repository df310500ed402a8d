// How many cells messages have.
ghost use Rattle.std.specs.Prelude.{◌≡◌, ◌≢◌, ◌<◌, ◌≤◌, ◌+◌, ◌*◌, ℕ, IfOk, IfSome, length, slice_index, filter, drop};
ghost use Rattle.mesh_decl.specs.Mesh.{set_count, dat_count};
ghost use Rattle.local_mesh.specs.LocalMesh.{originals_in};
ghost use Rattle.loop_plan.specs.Pairs.{sets_of, own_in};
ghost use Rattle.schedule_check.specs.Mail.{is_among, imported_from, cells_between, AreDistinct};

use crate::places::sets_on;
use local_mesh::{LocalSet, RankMesh};
use mesh_decl::Mesh;
use op_num::OutOfMemory;
use std::alloc::{AllocError, Global};

// Whether a rank owns the element of a set.
fn is_owned(set: &LocalSet, element: u32) -> bool
    requires { (j k : ℕ) → j < k → k < length set.now.original → slice_index set.now.original j ≢ slice_index set.now.original k }
    ensures { result ≡ is_among set.now.own set.now.original element }
{
    match set.original.local_of(element) {
        Some(local) => local < set.own,
        None => false,
    }
}

// How many of these elements a rank owns.
fn owned_count(set: &LocalSet, elements: &[u32]) -> u64
    requires { (j k : ℕ) → j < k → k < length set.now.original → slice_index set.now.original j ≢ slice_index set.now.original k }
    ensures { result ≡ length (filter (is_among set.now.own set.now.original) elements.now) }
{
    let mut count = 0;
    for element in elements {
        if is_owned(set, *element) {
            count += 1;
        }
    }
    count
}

/// The elements of a set that a rank has: `rank` is one of those of `ranks`, from 0, and `set` a set of its mesh.
pub fn local_set(ranks: &[RankMesh], rank: usize, set: u32) -> &LocalSet
    requires rank { rank < length ranks.now }
    requires set { set < length (sets_of ranks.now rank) }
    ensures own { result.now.own ≡ own_in (sets_of ranks.now rank) set }
    ensures originals { result.now.original ≡ originals_in (sets_of ranks.now rank) set }
{
    let sets = sets_on(ranks, rank);
    &sets[set as usize]
}

/// How many elements of a set the receiver `to` imports that the sender `from` owns, both ranks from 0. It takes time
/// linear in what the receiver imports.
pub fn imported_count(mesh: &Mesh, ranks: &[RankMesh], from: usize, to: usize, set: u32) -> u64
    requires ranks { AreDistinct mesh.now ranks.now }
    requires from { from < length ranks.now }
    requires to { to < length ranks.now }
    requires set { set < set_count mesh.now }
    ensures { result ≡ imported_from ranks.now from to set }
{
    mesh.is_in_range();
    let sender = local_set(ranks, from, set);
    let receiver = local_set(ranks, to, set);
    let imported = receiver
        .original
        .as_slice()
        .split_at(receiver.own as usize)
        .1;
    owned_count(sender, imported)
}

// A total with so many cells more for each of some elements, where 64 bits hold it.
fn with_cells(total: u64, dim: u32, elements: u64) -> Option<u64>
    ensures { IfSome result (λ n. n ≡ total + dim * elements) }
{
    let cells = elements.checked_mul(dim as u64)?;
    total.checked_add(cells)
}

/// The cells of these dats that the receiver imports from the sender.
pub fn message_cells(
    mesh: &Mesh,
    ranks: &[RankMesh],
    exchange: &[u32],
    from: u32,
    to: u32,
) -> Result<u64, OutOfMemory>
    requires ranks { AreDistinct mesh.now ranks.now }
    requires from { from < length ranks.now }
    requires to { to < length ranks.now }
    requires dats { (k : ℕ) → k < length exchange.now → slice_index exchange.now k < dat_count mesh.now }
    ensures { IfOk result (λ n. n ≡ cells_between mesh.now ranks.now exchange.now from to) }
{
    mesh.is_in_range();
    let mut total = 0;
    for dat in exchange {
        let (set, dim) = mesh.dat_shape(*dat);
        let elements = imported_count(mesh, ranks, from as usize, to as usize, set);
        match with_cells(total, dim, elements) {
            Some(more) => total = more,
            None => return Err(AllocError),
        }
    }
    Ok(total)
}

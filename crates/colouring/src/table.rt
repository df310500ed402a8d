// Numbers for the targets of a loop's arguments: exactly one for each local element of each dat.
ghost use Rattle.std.specs.Prelude.{◌≡◌, ℕ, ◌+◌, ◌<◌, ◌^◌, IfOk, OnOk, length, slice_index, slice_index_or};
ghost use Rattle.mesh_decl.specs.Mesh.{dat_count};
ghost use Rattle.local_mesh.specs.LocalMesh.{executed_in};
ghost use Rattle.colouring.specs.declared.types.IncArg.{IncArg as Arg};
ghost use Rattle.colouring.specs.Colours.{target_of, IsArg, AreArgs};
ghost use Rattle.colouring.specs.Table.{copies_of, IsRankOf, AreBases, AreStarts, IsTable};
ghost use Rattle.colouring.specs.Rows.{none};

use crate::types::IncArg;
use local_mesh::RankMesh;
use mesh_decl::Mesh;
use op_num::OutOfMemory;
use std::alloc::{AllocError, Global};

// Gives a dat of `count` local elements a base, where it has none, and answers how many numbers are given then.
fn reserve(bases: &mut [u32], total: u32, dat: u32, count: usize) -> Result<u32, OutOfMemory>
    requires dat { dat < length bases.old }
    requires count { count < 2 ^ 62 }
    ensures bases { IfOk result (λ n. (size : ℕ → ℕ) → size dat ≡ count → AreBases size bases.old total → AreBases size bases.new n) }
    ensures given { OnOk result (slice_index bases.new dat ≡ none → ⊥) }
    ensures kept { (d : ℕ) → (slice_index bases.old d ≡ none → ⊥) → slice_index bases.new d ≡ slice_index bases.old d }
{
    if bases[dat as usize] != u32::MAX {
        return Ok(total);
    }
    let end = total as usize + count;
    if end >= 4294967295 {
        return Err(AllocError);
    }
    bases[dat as usize] = total;
    Ok(end as u32)
}

// The number of each argument's local element 0, and how many numbers there are; `bases` has room for each dat.
fn give_numbers(
    alloc: Global,
    mesh: &Mesh,
    rank: &RankMesh,
    args: &[IncArg],
    bases: &mut [u32],
) -> Result<(Vec<u32>, u32), OutOfMemory>
    requires rank { IsRankOf mesh.now rank.now }
    requires args { (a : ℕ) (x : Arg) → a < length args.now → (slice_index_or args.now a x).dat < dat_count mesh.now }
    requires room { length bases.old ≡ dat_count mesh.now }
    requires fresh { (d : ℕ) → d < length bases.old → slice_index bases.old d ≡ none }
    ensures { IfOk result (λ s. AreStarts (copies_of mesh.now rank.now.sets.items) args.now s.0.items s.1) }
{
    mesh.is_in_range();
    let mut starts = Vec::with_capacity(alloc, args.len())?;
    let mut total = 0;
    for a in 0..args.len() {
        let dat = args[a].dat;
        let (set, _) = mesh.dat_shape(dat);
        let copies = rank.sets[set as usize].original.as_slice();
        total = reserve(bases, total, dat, copies.len())?;
        starts.push(bases[dat as usize])?;
    }
    Ok((starts, total))
}

/// The number of each argument's local element 0, and how many numbers there are.
pub fn first_numbers(
    alloc: Global,
    mesh: &Mesh,
    rank: &RankMesh,
    args: &[IncArg],
) -> Result<(Vec<u32>, u32), OutOfMemory>
    requires rank { IsRankOf mesh.now rank.now }
    requires args { (a : ℕ) (x : Arg) → a < length args.now → (slice_index_or args.now a x).dat < dat_count mesh.now }
    ensures { IfOk result (λ s. AreStarts (copies_of mesh.now rank.now.sets.items) args.now s.0.items s.1) }
{
    let mut bases = vec![in alloc; u32::MAX; mesh.dat_count() as usize]?;
    let numbers = give_numbers(alloc, mesh, rank, args, &mut bases)?;
    Ok(numbers)
}

// The local element into which a place reduces by an argument.
fn target(mesh: &Mesh, rank: &RankMesh, arg: &IncArg, place: u32) -> u32
    requires rank { IsRankOf mesh.now rank.now }
    requires arg { (s : ℕ) × IsArg mesh.now s arg.now × (place < executed_in rank.now.sets.items s) }
    ensures value { result ≡ target_of mesh.now rank.now.maps.items place arg.now }
    ensures within { result < copies_of mesh.now rank.now.sets.items arg.now.dat }
{
    mesh.is_in_range();
    match arg.via {
        None => place,
        Some(via) => {
            let (_, _, dim) = mesh.map_ends(via.map);
            rank.maps[via.map as usize][place as usize * dim as usize + via.index as usize]
        }
    }
}

// Appends the numbers of one place's targets.
fn push_numbers(
    table: &mut Vec<u32>,
    mesh: &Mesh,
    rank: &RankMesh,
    args: &[IncArg],
    starts: &[u32],
    total: u32,
    place: u32,
) -> Result<(), OutOfMemory>
    requires rank { IsRankOf mesh.now rank.now }
    requires args { AreArgs mesh.now rank.now.sets.items (place + 1) args.now }
    requires starts { AreStarts (copies_of mesh.now rank.now.sets.items) args.now starts.now total }
    ensures length { OnOk result (length table.new.items ≡ length table.old.items + length args.now) }
    ensures before { OnOk result ((k : ℕ) → k < length table.old.items → slice_index table.new.items k ≡ slice_index table.old.items k) }
    ensures at { OnOk result ((a : ℕ) (x : Arg) → a < length args.now
        → slice_index table.new.items (length table.old.items + a)
        ≡ slice_index starts.now a + target_of mesh.now rank.now.maps.items place (slice_index_or args.now a x)) }
    ensures within { OnOk result ((a : ℕ) → a < length args.now → slice_index table.new.items (length table.old.items + a) < total) }
{
    for a in 0..args.len() {
        let number = starts[a] + target(mesh, rank, &args[a], place);
        table.push(number)?;
    }
    Ok(())
}

/// The numbers of all targets of these places.
pub fn target_table(
    alloc: Global,
    mesh: &Mesh,
    rank: &RankMesh,
    args: &[IncArg],
    starts: &[u32],
    total: u32,
    places: u32,
) -> Result<Vec<u32>, OutOfMemory>
    requires rank { IsRankOf mesh.now rank.now }
    requires args { AreArgs mesh.now rank.now.sets.items places args.now }
    requires starts { AreStarts (copies_of mesh.now rank.now.sets.items) args.now starts.now total }
    ensures table { IfOk result (λ v. IsTable mesh.now rank.now.maps.items args.now starts.now places v.items) }
    ensures within { IfOk result (λ v. (k : ℕ) → k < length v.items → slice_index v.items k < total) }
{
    let mut table = Vec::with_capacity(alloc, (places as usize).saturating_mul(args.len()))?;
    for place in 0..places {
        push_numbers(&mut table, mesh, rank, args, starts, total, place)?;
    }
    Ok(table)
}

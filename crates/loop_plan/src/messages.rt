// Messages of an item.
ghost use Rattle.std.specs.Prelude.{◌≡◌, ◌<◌, ◌≤◌, ◌&&◌, ◌||◌, ◌++◌, ℕ, nat_eq, nat_lt, map, IfOk, OnOk, length};
ghost use Rattle.lemmas.specs.Below.{listed, row, rows};
ghost use Rattle.local_mesh.specs.RankSet.{has, has_at};
ghost use Rattle.mesh_decl.specs.Mesh.{set_count};
ghost use Rattle.local_mesh.specs.Sets.{sets_in, has_in};
ghost use Rattle.loop_plan.specs.Pairs.{pair, pairs_below};
ghost use Rattle.loop_plan.specs.Exports.{exports_in, is_some_exported, passes_by_exports, HaveExports, AreReceivers, AreDats};

use crate::types::Pair;
use bound_program::Mesh;
use local_mesh::halo_lists::Halos;
use local_mesh::rank_sets::RankSet;
use op_num::OutOfMemory;
use std::alloc::Global;

// The set, with the rank where that is wanted.
fn with_if(ranks: RankSet, is_wanted: bool, rank: u32) -> RankSet
    requires { rank < 64 }
    ensures { (k : ℕ) → has result k ≡ (has ranks k || (is_wanted && nat_eq k rank)) }
{
    if is_wanted { ranks.with(rank) } else { ranks }
}

// What an owner exports to a rank, by its lists.
fn exports_to(exports: &[Vec<u32>], rank: u32) -> &[u32]
    requires { rank < length exports.now }
    ensures { result.now ≡ row exports.now rank }
{
    &exports[rank as usize]
}

// Whether an owner exports something to a rank, by its lists.
fn is_exported(exports: &[Vec<u32>], rank: u32) -> bool
    requires { rank < length exports.now }
    ensures { result ≡ nat_lt 0 (length (row exports.now rank)) }
{
    0 < exports_to(exports, rank).len()
}

// The ranks for which an owner has exports, by its lists.
fn receivers_of(exports: &[Vec<u32>]) -> RankSet
    requires { length exports.now ≤ 64 }
    ensures { (r : ℕ) → has result r ≡ nat_lt 0 (length (row exports.now r)) }
{
    let mut receivers = RankSet::empty();
    for rank in 0..exports.len() as u32 {
        receivers = with_if(receivers, is_exported(exports, rank), rank);
    }
    receivers
}

// An owner's exports, by rank.
fn exports_of_owner(exports: &[Vec<Vec<u32>>], owner: usize) -> &[Vec<u32>]
    requires { owner < length exports.now }
    ensures { result.now ≡ rows exports.now owner }
{
    &exports[owner]
}

// By owner, the ranks for which it has exports of one set.
fn receivers_by_owner(alloc: Global, exports: &[Vec<Vec<u32>>]) -> Result<Vec<RankSet>, OutOfMemory>
    requires { (s : ℕ) → s < length exports.now → length (rows exports.now s) ≤ 64 }
    ensures count { IfOk result (λ v. length v.items ≡ length exports.now) }
    ensures has { IfOk result (λ v. (s r : ℕ) → s < length exports.now → has_at v.items s r ≡ is_some_exported exports.now s r) }
{
    let mut receivers = Vec::new(alloc);
    for owner in 0..exports.len() {
        receivers.push(receivers_of(exports_of_owner(exports, owner)))?;
    }
    Ok(receivers)
}

// The exports of a set.
fn exports_of(halos: &Halos, set: u32) -> &[Vec<Vec<u32>>]
    requires { set < length halos.now.sets.items }
    ensures { result.now ≡ exports_in halos.now set }
{
    &halos.sets[set as usize].exports
}

/// By set and owner, the ranks for which the owner has exports.
pub fn all_receivers(
    alloc: Global,
    mesh: &Mesh,
    halos: &Halos,
) -> Result<Vec<Vec<RankSet>>, OutOfMemory>
    requires exports { HaveExports mesh.now halos.now }
    ensures { IfOk result (λ v. AreReceivers mesh.now halos.now v.items) }
{
    let mut receivers = Vec::new(alloc);
    for set in 0..mesh.set_count() {
        receivers.push(receivers_by_owner(alloc, exports_of(halos, set))?)?;
    }
    Ok(receivers)
}

// The ranks for which an owner has exports of a set.
fn receivers_at(receivers: &[Vec<RankSet>], set: u32, owner: u32) -> RankSet
    requires set { set < length receivers.now }
    requires owner { owner < length (sets_in receivers.now set) }
    ensures { (r : ℕ) → has result r ≡ has_in receivers.now set owner r }
{
    let owners = receivers_in(receivers, set);
    owners[owner as usize]
}

// The ranks for which owners have exports of a set.
fn receivers_in(receivers: &[Vec<RankSet>], set: u32) -> &[RankSet]
    requires { set < length receivers.now }
    ensures { result.now ≡ sets_in receivers.now set }
{
    &receivers[set as usize]
}

// The ranks to which an owner sends where these dats are exchanged.
fn receivers_for(
    mesh: &Mesh,
    halos: &Halos,
    receivers: &[Vec<RankSet>],
    exchange: &[u32],
    owner: u32,
) -> RankSet
    requires receivers { AreReceivers mesh.now halos.now receivers.now }
    requires dats { AreDats mesh.now exchange.now }
    requires owner { owner < halos.now.ranks }
    ensures { (r : ℕ) → has result r ≡ passes_by_exports mesh.now halos.now exchange.now owner r }
{
    mesh.is_in_range();
    let mut ranks = RankSet::empty();
    for dat in exchange {
        let (set, _) = mesh.dat_shape(*dat);
        ranks = ranks.union(receivers_at(receivers, set, owner));
    }
    ranks
}

// The messages of an owner, by receiver.
fn push_messages(pairs: &mut Vec<Pair>, owner: u32, receivers: RankSet) -> Result<(), OutOfMemory>
    ensures { OnOk result (pairs.new.items ≡ pairs.old.items ++ map (pair owner) (listed 64 (has receivers))) }
{
    let mut rest = receivers;
    while let Some(rank) = rest.first() {
        pairs.push(Pair {
            from: owner,
            to: rank,
        })?;
        rest = rest.without(rank);
    }
    Ok(())
}

/// The messages of an item that exchanges these dats, by sender and receiver.
///
/// It takes time linear in the ranks, for each dat, and in the messages.
pub fn messages(
    alloc: Global,
    mesh: &Mesh,
    halos: &Halos,
    receivers: &[Vec<RankSet>],
    exchange: &[u32],
) -> Result<Vec<Pair>, OutOfMemory>
    requires exports { HaveExports mesh.now halos.now }
    requires receivers { AreReceivers mesh.now halos.now receivers.now }
    requires dats { AreDats mesh.now exchange.now }
    ensures { IfOk result (λ v. v.items ≡ pairs_below (passes_by_exports mesh.now halos.now exchange.now) halos.now.ranks halos.now.ranks) }
{
    mesh.is_in_range();
    let mut pairs = Vec::new(alloc);
    for owner in 0..halos.ranks {
        let ranks = receivers_for(mesh, halos, receivers, exchange, owner);
        push_messages(&mut pairs, owner, ranks)?;
    }
    Ok(pairs)
}

// How many spans an element's frame or a message has at most.

ghost use Rattle.std.specs.Prelude.{◌≡◌, ◌<◌, ◌≤◌, ◌⊎◌, ℕ, length};
ghost use Rattle.bound_program.specs.Values.{bound_of};
ghost use Rattle.bound_program.specs.Fits.{Fits, site_at};
ghost use Rattle.rank_layout.specs.SendLaws.{pair_spans, FewExports, IsMost, IsMostSent};

use crate::MAX_ARGS;
use crate::messages::exported_locals;
use bound_program::Bound;
use local_mesh::LocalLists;
use mesh_decl::Mesh;

// How many spans the messages between two ranks have at most, where every dat is exchanged.
fn pair_spans(mesh: &Mesh, lists: &[LocalLists], ranks: u32, from: u32, to: u32) -> usize
    requires few { FewExports mesh.now ranks lists.now }
    requires from { from < ranks }
    requires to { to < ranks }
    ensures { result ≡ pair_spans mesh.now lists.now from to }
{
    let mut spans = 0;
    for dat in 0..mesh.dat_count() {
        let (set, _) = mesh.dat_shape(dat);
        spans += exported_locals(lists, set, from, to).len();
    }
    spans
}

// The most of the messages from one rank.
fn most_from(mesh: &Mesh, lists: &[LocalLists], ranks: u32, from: u32) -> usize
    requires few { FewExports mesh.now ranks lists.now }
    requires from { from < ranks }
    ensures { IsMost (pair_spans mesh.now lists.now from) ranks result }
{
    let mut most = 0;
    for to in 0..ranks {
        most = pair_spans(mesh, lists, ranks, from, to).max(most);
    }
    most
}

// The most of all messages.
fn most_sent(mesh: &Mesh, lists: &[LocalLists], ranks: u32) -> usize
    requires { FewExports mesh.now ranks lists.now }
    ensures { IsMostSent mesh.now lists.now ranks ranks result }
{
    let mut most = 0;
    for from in 0..ranks {
        most = most_from(mesh, lists, ranks, from).max(most);
    }
    most
}

/// The most spans of a message between two ranks where every dat is exchanged, by the lists of what ranks export, or 16
/// where that is more, since a loop has no more arguments. It takes time linear in the number of these lists, for each
/// dat, and no memory.
pub fn most_spans(bound: &Bound, lists: &[LocalLists], ranks: u32) -> usize
    requires fits { Fits (bound_of bound.now) }
    requires few { FewExports (bound_of bound.now).mesh ranks lists.now }
    ensures elements { (s : ℕ) → s < length (bound_of bound.now).sites → length (site_at (bound_of bound.now) s).args ≤ result }
    ensures messages { (s r : ℕ) → s < ranks → r < ranks → pair_spans (bound_of bound.now).mesh lists.now s r ≤ result }
    ensures least { (result ≡ 16)
        ⊎ ((s : ℕ) × (r : ℕ) × (s < ranks) × (r < ranks) × (pair_spans (bound_of bound.now).mesh lists.now s r ≡ result)) }
{
    most_sent(&bound.mesh, lists, ranks).max(MAX_ARGS)
}

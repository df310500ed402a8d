// The windows on dats of an element, in the buffers of the ranks that own them.

ghost use Rattle.std.specs.Prelude.{◌≡◌, ◌<◌, ◌≤◌, ◌+◌, ◌*◌, All, [], ◌∷◌, length, slice_index, vec_capacity};
ghost use Rattle.bound_program.specs.Values.{bound_of};
ghost use Rattle.bound_plan.specs.Places.{bases_of, cells_of};
ghost use Rattle.rank_layout.specs.OwnedWindows.{begins_with, begins_among, with_owned, owned_after, owners_locals};
ghost use Rattle.rank_layout.specs.OwnedWindows.{owners_span, HasPlace, owned_by, ArgPlaced};

use crate::element_by;
use bound_program::{Arg, Bound};
use local_mesh::{LocalLists, RankMesh};
use mesh_decl::Owners;
use rank_state::Owned;

// Whether both spans begin at one cell.
fn begins_with(span: Owned, other: Owned) -> bool
    ensures { result ≡ begins_with span other }
{
    span.rank == other.rank && span.at == other.at
}

// Whether a span of the list begins where this one does.
fn begins_among(span: Owned, spans: &[Owned]) -> bool
    ensures { result ≡ begins_among span spans.now }
{
    for other in spans {
        if begins_with(span, *other) {
            return true;
        }
    }
    false
}

// One span more, unless one begins where it does.
fn push_owned(span: Owned, spans: &mut Vec<Owned>)
    requires { length spans.old.items < vec_capacity spans.old }
    ensures spans { spans.new.items ≡ with_owned span spans.old.items }
    ensures room { vec_capacity spans.new ≡ vec_capacity spans.old }
    ensures more { length spans.new.items ≤ length spans.old.items + 1 }
{
    if !begins_among(span, spans) {
        spans.push_reserved(span);
    }
}

// The local number of an element of a set on its owner.
fn owners_local(lists: &[LocalLists], set: u32, element: u32) -> u32
    requires set { set < length lists.now }
    requires element { element < length (owners_locals lists.now set) }
    ensures { result ≡ slice_index (owners_locals lists.now set) element }
{
    lists[set as usize].at_owner.of(element)
}

// Where the values of a dat's element with a local number begin in a rank's buffer; `dim` is the dat's.
fn place_on(meshes: &[RankMesh], rank: u32, dat: u32, dim: u32, local: u32) -> usize
    requires rank { rank < length meshes.now }
    requires dat { dat < length (bases_of meshes.now rank) }
    requires inside { slice_index (bases_of meshes.now rank) dat + local * dim + dim ≤ cells_of meshes.now rank }
    ensures { result ≡ slice_index (bases_of meshes.now rank) dat + local * dim }
{
    meshes[rank as usize].place(dat, dim, local)
}

/// A bound program's dats in the buffers of their owners: the program, who owns each element, the local mesh of each
/// rank, and by set the local numbers of what ranks own.
#[derive(Clone, Copy)]
pub struct OwnedDats<'a> {
    pub bound: &'a Bound,
    pub owners: &'a Owners,
    pub meshes: &'a [RankMesh],
    pub lists: &'a [LocalLists],
}

/// Where the values of an element of a dat stand in the buffer of its owner. Takes no memory.
pub fn owners_span(dats: &OwnedDats<'_>, dat: u32, element: u32) -> Owned
    requires { HasPlace (bound_of dats.now.bound.now).mesh dats.now.owners.now dats.now.meshes.now dats.now.lists.now dat element }
    ensures { result
        ≡ owners_span (bound_of dats.now.bound.now).mesh dats.now.owners.now dats.now.meshes.now dats.now.lists.now dat element }
{
    let (set, dim) = dats.bound.mesh.dat_shape(dat);
    let rank = dats.owners.rank_of(set, element);
    let local = owners_local(dats.lists, set, element);
    Owned {
        rank,
        at: place_on(dats.meshes, rank, dat, dim, local),
        dim: dim as usize,
    }
}

// Puts down the window of one argument, where it is on a dat.
fn push_window(dats: &OwnedDats<'_>, arg: Arg, element: u32, spans: &mut Vec<Owned>)
    requires placed { ArgPlaced (bound_of dats.now.bound.now) dats.now.owners.now dats.now.meshes.now dats.now.lists.now element arg }
    requires room { length spans.old.items < vec_capacity spans.old }
    ensures spans { spans.new.items
        ≡ owned_after
        (owned_by (bound_of dats.now.bound.now) dats.now.owners.now dats.now.meshes.now dats.now.lists.now element)
        (arg ∷ []) spans.old.items }
    ensures room { vec_capacity spans.new ≡ vec_capacity spans.old }
    ensures more { length spans.new.items ≤ length spans.old.items + 1 }
{
    match arg {
        Arg::Dat { dat, via, .. } => {
            let reached = element_by(dats.bound, via, element);
            let span = owners_span(dats, dat, reached);
            push_owned(span, spans);
        }
        Arg::Global { .. } => {}
    }
}

/// Puts down where the windows on dats of an element stand in the buffers of their owners, in the order in which the
/// arguments first reach them. Takes no memory.
pub fn push_windows(dats: &OwnedDats<'_>, args: &[Arg], element: u32, spans: &mut Vec<Owned>)
    requires placed { All
        (ArgPlaced (bound_of dats.now.bound.now) dats.now.owners.now dats.now.meshes.now dats.now.lists.now element) args.now }
    requires room { length spans.old.items + length args.now ≤ vec_capacity spans.old }
    ensures spans { spans.new.items
        ≡ owned_after
        (owned_by (bound_of dats.now.bound.now) dats.now.owners.now dats.now.meshes.now dats.now.lists.now element)
        args.now spans.old.items }
    ensures room { vec_capacity spans.new ≡ vec_capacity spans.old }
{
    for arg in args {
        push_window(dats, *arg, element, spans);
    }
}

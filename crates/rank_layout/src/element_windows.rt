// The windows on dats of a loop's element at a place of a rank.

ghost use Rattle.std.specs.Prelude.{◌≡◌, ◌<◌, ◌≤◌, ◌+◌, ◌*◌, [], ◌∷◌, All, map, length, slice_index, vec_capacity};
ghost use Rattle.mesh_decl.specs.Mesh.{dat_count, dat_dim};
ghost use Rattle.bound_program.specs.Classes.{modifies};
ghost use Rattle.rank_layout.specs.DatWindows.{local_by, with_span, spans_after, ViaHere, ArgHere};
ghost use Rattle.rank_layout.specs.WindowLaws.{dat_span, arg_span};
ghost use Rattle.rank_layout.specs.Made.{writes_by};

use crate::dat_windows::{local_target, push_span};
use bound_program::{Arg, Via};
use local_mesh::RankMesh;
use mesh_decl::Mesh;
use rank_state::Span;

// The local number of the element that the one at the place reaches directly, or by a map.
fn local_by(mesh: &Mesh, part: &RankMesh, place: u32, via: Option<Via>) -> u32
    requires { ViaHere mesh.now part.now place via }
    ensures { result ≡ local_by mesh.now part.now place via }
{
    match via {
        None => place,
        Some(via) => local_target(mesh, part, via, place),
    }
}

// Adds where the window on a dat stands, unless a window begins there.
fn push_dat_window(
    mesh: &Mesh,
    part: &RankMesh,
    dat: u32,
    local: u32,
    writes: bool,
    spans: &mut Vec<Span>,
)
    requires dat { dat < dat_count mesh.now }
    requires base { dat < length part.now.bases.items }
    requires within { slice_index part.now.bases.items dat + (local + 1) * dat_dim mesh.now dat ≤ part.now.cells }
    requires room { length spans.old.items < vec_capacity spans.old }
    ensures spans { spans.new.items ≡ with_span (dat_span mesh.now part.now dat local writes) spans.old.items }
    ensures room { vec_capacity spans.new ≡ vec_capacity spans.old }
{
    let (_, dim) = mesh.dat_shape(dat);
    let at = part.place(dat, dim, local);
    push_span(
        Span {
            at,
            dim: dim as usize,
            writes,
        },
        spans,
    );
}

// Adds where the window of an argument on a dat stands, unless a window begins there.
fn push_window(
    mesh: &Mesh,
    part: &RankMesh,
    place: u32,
    arg: Arg,
    writes: bool,
    spans: &mut Vec<Span>,
)
    requires here { ArgHere mesh.now part.now place arg }
    requires room { length spans.old.items < vec_capacity spans.old }
    ensures spans { spans.new.items ≡ spans_after (arg_span mesh.now part.now place (λ d. writes)) (arg ∷ []) spans.old.items }
    ensures room { vec_capacity spans.new ≡ vec_capacity spans.old }
{
    match arg {
        Arg::Dat { dat, via, .. } => {
            let local = local_by(mesh, part, place, via);
            push_dat_window(mesh, part, dat, local, writes, spans);
        }
        Arg::Global { .. } => {}
    }
}

/// Puts down where the windows on dats of a loop's element stand in the buffer of a rank, whose local mesh is `part`.
/// `args` are the loop's arguments, `writes` says of each whether the loop modifies its dat, and `place` is the
/// element's number on the rank. `spans` is lent empty, with room for as many as there are arguments. Takes no memory.
pub fn push_local_windows(
    mesh: &Mesh,
    part: &RankMesh,
    args: &[Arg],
    writes: &[bool],
    place: u32,
    spans: &mut Vec<Span>,
)
    requires here { All (ArgHere mesh.now part.now place) args.now }
    requires writes { writes.now ≡ map (writes_by args.now) args.now }
    requires empty { spans.old.items ≡ [] }
    requires room { length args.now ≤ vec_capacity spans.old }
    ensures spans { spans.new.items ≡ spans_after (arg_span mesh.now part.now place (modifies args.now)) args.now [] }
    ensures room { vec_capacity spans.new ≡ vec_capacity spans.old }
{
    for (i, arg) in args.iter().enumerate() {
        push_window(mesh, part, place, *arg, writes[i], spans);
    }
}

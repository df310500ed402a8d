// The arguments of a loop on dats by a rank's local numbers, looked up once for all its places.

ghost use Rattle.std.specs.Prelude.{◌≡◌, ℕ, All, length};
ghost use Rattle.rank_layout.specs.DatWindows.{ArgHere, ViaHere};
ghost use Rattle.rank_program.specs.LocalArgs.{CountsCells, IsVia, IsArg, AreArgs, place_in, places_in};

use bound_program::Arg;
use kernel_model::types::views::Place;
use kernel_runs::row_batches::batch_tables::LocalArg;
use kernel_runs::row_batches::{LocalVia, local_number};
use local_mesh::RankMesh;
use mesh_decl::{Mesh, Via};
use rank_layout::targets_of;

// The same map by local numbers.
fn local_via<'a>(mesh: &Mesh, part: &'a RankMesh, via: Option<Via>) -> Option<LocalVia<'a>>
    requires { (place : ℕ) × ViaHere mesh.now part.now place via }
    ensures { IsVia mesh.now part.now via result }
{
    let via = via?;
    let (_, _, dim) = mesh.map_ends(via.map);
    Some(LocalVia {
        targets: targets_of(part, via.map),
        step: dim as usize,
        index: via.index as usize,
    })
}

// An argument by local numbers; none for one on a variable.
fn local_arg<'a>(mesh: &Mesh, part: &'a RankMesh, arg: Arg) -> Option<LocalArg<'a>>
    requires { (place : ℕ) × ArgHere mesh.now part.now place arg }
    ensures { IsArg mesh.now part.now arg result }
{
    match arg {
        Arg::Dat { dat, via, .. } => {
            let (_, dim) = mesh.dat_shape(dat);
            Some(LocalArg {
                via: local_via(mesh, part, via),
                base: part.bases[dat as usize],
                dim: dim as usize,
            })
        }
        Arg::Global { .. } => None,
    }
}

/// Each argument of a loop by local numbers. The rank has the loop's arguments at some place.
pub fn put_local_args<'a>(
    mesh: &Mesh,
    part: &'a RankMesh,
    args: &[Arg],
    locals: &mut [Option<LocalArg<'a>>],
)
    requires here { (place : ℕ) × All (ArgHere mesh.now part.now place) args.now }
    requires count { length locals.old ≡ length args.now }
    ensures { AreArgs mesh.now part.now args.now locals.new }
{
    for (i, arg) in args.iter().enumerate() {
        locals[i] = local_arg(mesh, part, *arg);
    }
}

// Puts down where the cells of an argument stand for a place; those of one on a variable stay where they stood.
fn put_place(arg: &Option<LocalArg<'_>>, place: u32, stood: &mut Place)
    requires { CountsCells place arg.now }
    ensures { stood.new ≡ place_in place arg.now stood.old }
{
    if let Some(arg) = arg {
        *stood = Place {
            from: arg.base + local_number(&arg.via, place) as usize * arg.dim,
            count: arg.dim,
        };
    }
}

/// Puts down where the cells of each argument stand in a rank's buffer, for the element at a place. The places of
/// arguments on variables stay as they are.
pub fn put_places(args: &[Option<LocalArg<'_>>], place: u32, places: &mut [Place])
    requires here { All (CountsCells place) args.now }
    requires count { length places.old ≡ length args.now }
    ensures { places.new ≡ places_in place args.now places.old }
{
    for (i, arg) in args.iter().enumerate() {
        put_place(arg, place, &mut places[i]);
    }
}

// Arguments that lead by the targets of one map in order: the map's own table is that of their numbers.
ghost use Rattle.std.specs.Prelude.{◌≡◌, ◌<◌, ℕ, IsTrue, IfSome, length, slice_index, slice_index_or};
ghost use Rattle.colouring.specs.declared.types.IncArg.{IncArg as Arg};
ghost use Rattle.colouring.specs.Colours.{IsArg};
ghost use Rattle.colouring.specs.Mapped.{IsColumn, AreColumns};

use crate::types::IncArg;
use mesh_decl::Mesh;

// Whether an argument leads by this target of the map, its numbers from 0 on.
fn is_column(arg: &IncArg, start: u32, map: u32, index: usize) -> bool
    ensures { IsTrue result → IsColumn map start index arg.now }
{
    match arg.via {
        Some(via) => start == 0 && via.map == map && via.index as usize == index,
        None => false,
    }
}

// Whether the arguments lead by the targets of the map in order, their numbers from 0 on.
fn are_columns(args: &[IncArg], starts: &[u32], map: u32) -> bool
    requires { length starts.now ≡ length args.now }
    ensures { IsTrue result → (a : ℕ) (x : Arg) → a < length args.now
        → IsColumn map (slice_index starts.now a) a (slice_index_or args.now a x) }
{
    for a in 0..args.len() {
        if !is_column(&args[a], starts[a], map, a) {
            return false;
        }
    }
    true
}

/// The map by whose targets, all in order, the arguments lead, their numbers from 0 on; where there is none, none.
pub fn columns_map(mesh: &Mesh, args: &[IncArg], starts: &[u32]) -> Option<u32>
    requires args { (s : ℕ) × ((a : ℕ) (x : Arg) → a < length args.now → IsArg mesh.now s (slice_index_or args.now a x)) }
    requires starts { length starts.now ≡ length args.now }
    ensures { IfSome result (AreColumns mesh.now args.now starts.now) }
{
    if args.is_empty() {
        return None;
    }
    let map = args[0].via?.map;
    let (_, _, dim) = mesh.map_ends(map);
    if dim as usize != args.len() {
        return None;
    }
    if !are_columns(args, starts, map) {
        return None;
    }
    Some(map)
}

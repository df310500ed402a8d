// The items that are joins, and the copies of owners.

ghost use Rattle.std.specs.Prelude.{◌≡◌, ◌<◌, ◌≤◌, [], length, vec_capacity};
ghost use Rattle.mesh_decl.specs.Mesh.{dat_count, dat_set, set_size};
ghost use Rattle.schedule_model.specs.Program.{Reduce, Ordered, elements};
ghost use Rattle.bound_program.specs.Values.{bound_of};
ghost use Rattle.run_model.specs.Programs.{item_at, kind_of, loop_of};
ghost use Rattle.rank_state.specs.Joins.{AreReduced};
ghost use Rattle.rank_state.specs.Ordered.{AreOwned};
ghost use Rattle.rank_program.specs.Copies.{IsOwnersCopy};
ghost use Rattle.rank_layout.specs.Made.{row_of};
ghost use Rattle.rank_layout.specs.Tables.{tables_of};
ghost use Rattle.rank_program.specs.Sound.{program_in, plan_in, setup_in, layout_in};

use crate::items::loop_of;
use crate::laws_copies::copies_stand;
use crate::runnable::Runnable;
use bound_program::{Bound, Item};
use rank_layout::{
    OwnedDats, args_of, owned_stand, owners_span, push_windows, reduces_are_there, row_of,
    scalars_stand,
};
use rank_state::{Owned, Scalar};

/// Puts down where the windows of an element of an Ordered loop stand in the buffers of their owners, and gives the
/// numbers of the variables' cells behind them. Takes no memory.
pub fn push_owned_windows<'p>(
    program: &'p Runnable<'_>,
    item: u32,
    element: u32,
    spans: &mut Vec<Owned>,
) -> &'p [usize]
    requires kind { (setup_in program.now).program.kind item ≡ Ordered }
    requires element { element < elements (setup_in program.now).program item }
    requires empty { spans.old.items ≡ [] }
    requires room { program.now.tables.spans ≤ vec_capacity spans.old }
    ensures are { AreOwned (setup_in program.now) (layout_in program.now) (tables_of (program_in program.now) (plan_in program.now))
        item element spans.new.items result.now }
    ensures indices { result.now ≡ row_of program.now.tables.indices.items (loop_of (item_at (program_in program.now) item)) }
    ensures room { vec_capacity spans.new ≡ vec_capacity spans.old }
{
    let program = program.parts();
    owned_stand();
    let site = loop_of(program.bound, item);
    let args = args_of(program.bound, site as usize);
    let dats = OwnedDats {
        bound: program.bound,
        owners: program.owners,
        meshes: program.meshes,
        lists: program.lists,
    };
    push_windows(&dats, args, element, spans);
    row_of(&program.tables.indices, site)
}

// The number of the loop of a Reduce.
fn reduced_loop(bound: &Bound, item: u32) -> u32
    requires there { item < length (bound_of bound.now).trace }
    requires kind { kind_of (item_at (bound_of bound.now) item) ≡ Reduce }
    ensures { result ≡ loop_of (item_at (bound_of bound.now) item) }
{
    match &bound.trace[item as usize] {
        Item::Reduce { site } => *site,
        _ => 0,
    }
}

/// The cells into which the loop of a Reduce reduces, beside others that it reads.
pub fn reduced_scalars<'p>(program: &'p Runnable<'_>, item: u32) -> &'p [Scalar]
    requires { (setup_in program.now).program.kind item ≡ Reduce }
    ensures { AreReduced (setup_in program.now) (layout_in program.now) (tables_of (program_in program.now) (plan_in program.now))
        item result.now }
{
    let program = program.parts();
    reduces_are_there();
    scalars_stand();
    row_of(&program.tables.scalars, reduced_loop(program.bound, item))
}

/// Where an element's values of a dat stand in the buffer of its owner; both by their numbers in the mesh.
pub fn owners_copy(program: &Runnable<'_>, dat: u32, element: u32) -> Owned
    requires dat { dat < dat_count (program_in program.now).mesh }
    requires element { element < set_size (program_in program.now).mesh (dat_set (program_in program.now).mesh dat) }
    ensures { IsOwnersCopy (program_in program.now) (setup_in program.now) (layout_in program.now) dat element result }
{
    let program = program.parts();
    copies_stand();
    let dats = OwnedDats {
        bound: program.bound,
        owners: program.owners,
        meshes: program.meshes,
        lists: program.lists,
    };
    owners_span(&dats, dat, element)
}

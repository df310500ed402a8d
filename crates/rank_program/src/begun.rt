// What the machine reads of the element at a place.

ghost use Rattle.std.specs.Prelude.{◌≡◌, ℕ, ◌≤◌, ◌==◌, [], nat_lt, vec_capacity};
ghost use Rattle.schedule_steps.specs.declared.step.Step.TheVariants.{Begin};
ghost use Rattle.rank_state.specs.Shows.{AreWindows};
ghost use Rattle.rank_program.specs.Sound.{Sound, setup_in, layout_in, tables_in, HasStep};

use crate::elements::{is_own, original_of, own_count};
use crate::items::{loop_of, site_of};
use crate::program::DistributedProgram;
use crate::runnable::Runnable;
use rank_layout::{element_windows_stand, push_local_windows, row_of, steps_stand, windows_stand};
use rank_state::{Scalar, Span};

// The element at a place of a rank, in the set of the item's loop, by its original number.
pub(crate) fn original_in(program: &DistributedProgram<'_>, item: u32, rank: u32, place: u32) -> u32
    requires sound { Sound program.now }
    requires step { HasStep program.now (Begin item rank place) }
    ensures { result ≡ (layout_in program.now).original item rank place }
{
    steps_stand();
    let site = site_of(program.bound, item);
    original_of(program.meshes, rank, site.set, place)
}

/// The element at a place of a rank, in the set of the item's loop, by its original number.
pub fn original_at(program: &Runnable<'_>, item: u32, rank: u32, place: u32) -> u32
    requires { HasStep program.now (Begin item rank place) }
    ensures { result ≡ (layout_in program.now).original item rank place }
{
    original_in(program.parts(), item, rank, place)
}

// Whether the rank owns the element at a place.
pub(crate) fn owns_in(program: &DistributedProgram<'_>, item: u32, rank: u32, place: u32) -> bool
    requires sound { Sound program.now }
    requires step { HasStep program.now (Begin item rank place) }
    ensures { result
        ≡ ((setup_in program.now).owner ((setup_in program.now).program.set item) ((layout_in program.now).original item rank place)
        == rank) }
{
    steps_stand();
    local_mesh::owned_come_first();
    let site = site_of(program.bound, item);
    is_own(program.meshes, rank, site.set, place)
}

/// Whether the rank owns the element at a place.
pub fn owns_at(program: &Runnable<'_>, item: u32, rank: u32, place: u32) -> bool
    requires { HasStep program.now (Begin item rank place) }
    ensures { result
        ≡ ((setup_in program.now).owner ((setup_in program.now).program.set item) ((layout_in program.now).original item rank place)
        == rank) }
{
    owns_in(program.parts(), item, rank, place)
}

// How many elements of the set of the item's loop a rank owns: an element is its own where its place is below that.
// The rank has an element of the loop.
pub(crate) fn own_places(program: &DistributedProgram<'_>, item: u32, rank: u32) -> u32
    requires sound { Sound program.now }
    requires step { (place : ℕ) × HasStep program.now (Begin item rank place) }
    ensures { (x : ℕ) → HasStep program.now (Begin item rank x)
        → ((setup_in program.now).owner ((setup_in program.now).program.set item) ((layout_in program.now).original item rank x)
        == rank) ≡ nat_lt x result }
{
    steps_stand();
    local_mesh::owned_come_first();
    let site = site_of(program.bound, item);
    own_count(program.meshes, rank, site.set)
}

/// Puts down where the windows of a place's element stand in its rank's buffer, and gives the scalars behind them.
/// `spans` is lent empty, with room for as many as an element has at most. Takes no memory.
pub fn push_element<'p>(
    program: &'p Runnable<'_>,
    item: u32,
    rank: u32,
    place: u32,
    spans: &mut Vec<Span>,
) -> &'p [Scalar]
    requires step { HasStep program.now (Begin item rank place) }
    requires empty { spans.old.items ≡ [] }
    requires room { program.now.tables.spans ≤ vec_capacity spans.old }
    ensures are { AreWindows (setup_in program.now) (layout_in program.now)
        (tables_in program.now) item rank place spans.new.items result.now }
    ensures room { vec_capacity spans.new ≡ vec_capacity spans.old }
{
    let program = program.parts();
    steps_stand();
    windows_stand();
    element_windows_stand();
    let site = loop_of(program.bound, item);
    let args = &site_of(program.bound, item).args;
    let part = &program.meshes[rank as usize];
    let writes = row_of(&program.tables.writes, site);
    push_local_windows(&program.bound.mesh, part, args, writes, place, spans);
    row_of(&program.tables.scalars, site)
}

// The loops of items.

ghost use Rattle.std.specs.Prelude.{◌≡◌, true};
ghost use Rattle.schedule_model.specs.Program.{is_loop};
ghost use Rattle.bound_program.specs.Values.{bound_of};
ghost use Rattle.bound_program.specs.Fits.{Fits};
ghost use Rattle.run_model.specs.Programs.{item_at, kind_of, loop_of};
ghost use Rattle.bound_program.specs.Values as value;
ghost use Rattle.run_model.specs.Laws as the;

use bound_program::{Bound, Item, Site};

/// The number of the loop of an item that is one.
pub fn loop_of(bound: &Bound, item: u32) -> u32
    requires { is_loop (kind_of (item_at (bound_of bound.now) item)) ≡ true }
    ensures { result ≡ loop_of (item_at (bound_of bound.now) item) }
{
    match &bound.trace[item as usize] {
        Item::Free { site } => *site,
        Item::Reduce { site } => *site,
        Item::Ordered { site } => *site,
        Item::Host { .. } => 0,
    }
}

/// The loop of an item that is one.
pub fn site_of(bound: &Bound, item: u32) -> &Site
    requires fits { Fits (bound_of bound.now) }
    requires is_loop { is_loop (kind_of (item_at (bound_of bound.now) item)) ≡ true }
    ensures { value.site_of result.now ≡ the.site_of (bound_of bound.now) item }
{
    run_model::items_are_there();
    &bound.sites[loop_of(bound, item) as usize]
}

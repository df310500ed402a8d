// How many chains a program has.

ghost use Rattle.std.specs.Prelude.{◌≡◌, ◌<◌, ◌^◌, length};
ghost use Rattle.schedule_model.specs.Program.{is_free};
ghost use Rattle.bound_program.specs.Values.{bound_of};
ghost use Rattle.run_model.specs.Programs.{kind_of, item_at, program_of};
ghost use Rattle.chain_model.specs.Chains.{follows_free};
ghost use Rattle.chain_model.specs.Counts.{begins_at, chain_count};

use crate::chains::free_site;
use bound_program::Bound;

// Whether an item is Free.
fn is_free(bound: &Bound, item: usize) -> bool
    requires { item < length (bound_of bound.now).trace }
    ensures { result ≡ is_free (kind_of (item_at (bound_of bound.now) item)) }
{
    free_site(bound, item).is_some()
}

// Whether a Free item stands directly before one.
fn follows_free(bound: &Bound, item: usize) -> bool
    requires { item < length (bound_of bound.now).trace }
    ensures { result ≡ follows_free (program_of (bound_of bound.now)).kind item }
{
    if item == 0 {
        false
    } else {
        is_free(bound, item - 1)
    }
}

/// Whether a chain begins at an item.
pub fn begins_chain(bound: &Bound, item: usize) -> bool
    requires { item < length (bound_of bound.now).trace }
    ensures { result ≡ begins_at (bound_of bound.now) item }
{
    is_free(bound, item) && !follows_free(bound, item)
}

/// How many chains a program has.
pub fn chain_count(bound: &Bound) -> u32
    requires { length (bound_of bound.now).trace < 2 ^ 32 }
    ensures { result ≡ chain_count (bound_of bound.now) }
{
    let mut count = 0;
    for item in 0..bound.trace.len() {
        if begins_chain(bound, item) {
            count += 1;
        }
    }
    count
}

// Where a rank's places are cut into runs.
ghost use Rattle.std.specs.Prelude.{◌≡◌, ◌<◌, ◌≤◌, ◌-◌, [], get_or, length, take, drop, IfOk};
ghost use Rattle.step_orders.specs.Runs.{cut, AreEnds};
ghost use Rattle.step_orders.specs.Pieces.{is_alike, goes_on, pieces_from};

use crate::counting::key_of;
use op_num::OutOfMemory;
use std::alloc::Global;

// Whether two places are of one block and colour.
fn is_alike(size: u32, colours: &[u32], one: u32, other: u32) -> bool
    requires { 1 ≤ size }
    ensures { result ≡ is_alike size colours.now one other }
{
    one / size == other / size && key_of(colours, one) == key_of(colours, other)
}

// Whether a place goes on the run that is begun at `start`.
fn goes_on(size: u32, colours: &[u32], group: u32, places: &[u32], start: usize, at: usize) -> bool
    requires size { 1 ≤ size }
    requires order { start ≤ at }
    requires within { at < length places.now }
    ensures { result ≡ goes_on (is_alike size colours.now) group (take (at - start) (drop start places.now)) (get_or places.now at 0) }
{
    start == at || at - start < group as usize && is_alike(size, colours, places[start], places[at])
}

/// Where the places end that are begun together: each time at most `group` of them, of one block and colour. An error
/// is want of memory.
pub fn run_ends(
    alloc: Global,
    size: u32,
    colours: &[u32],
    group: u32,
    places: &[u32],
) -> Result<Vec<usize>, OutOfMemory>
    requires { 1 ≤ size }
    ensures ends { IfOk result (λ v. AreEnds 0 places.now v.items) }
    ensures pieces { IfOk result (λ v. cut 0 places.now v.items ≡ pieces_from (is_alike size colours.now) group [] places.now) }
{
    let mut ends = Vec::new(alloc);
    let mut start = 0;
    for at in 0..places.len() {
        if !goes_on(size, colours, group, places, start, at) {
            ends.push(at)?;
            start = at;
        }
    }
    if start < places.len() {
        ends.push(places.len())?;
    }
    Ok(ends)
}

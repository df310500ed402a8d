// A fault and its place, and the least of those that are recorded.

ghost use Rattle.std.specs.Prelude.{◌≡◌, Some, Option};
ghost use Rattle.schedule_model.specs.Machine.{is_less_element};
ghost use Rattle.schedule_model.specs.Kept.{if_before};
ghost use Rattle.rank_state.specs.Machine.{noted};
ghost use Rattle.rank_state.specs.Stops.{stop_in};

use kernel_model::types::KernelFault;

/// A fault and where it came; a host statement has no element.
#[derive(Clone, Copy, PartialEq, Eq, Debug)]
pub struct Stop {
    pub item: u32,
    pub element: Option<u32>,
    pub fault: KernelFault,
}

// The first element is before the second.
fn is_before(element: u32, other: Option<u32>) -> bool
    ensures { result ≡ is_less_element (Some element) other }
{
    match other {
        Some(b) => element < b,
        None => false,
    }
}

/// The earlier of a recorded fault and a new one; of two of one element, the first.
pub fn least(
    before: Option<Stop>,
    item: u32,
    element: u32,
    fault: Option<KernelFault>,
) -> Option<Stop>
    ensures { stop_in result ≡ noted item element fault (stop_in before) }
{
    let Some(fault) = fault else {
        return before;
    };
    let new = Stop {
        item,
        element: Some(element),
        fault,
    };
    match before {
        Some(old) => {
            if item < old.item || (item == old.item && is_before(element, old.element)) {
                Some(new)
            } else {
                Some(old)
            }
        }
        None => Some(new),
    }
}

/// The fault, where its item is before this one.
pub fn before(fault: Option<Stop>, item: u32) -> Option<Stop>
    ensures { stop_in result ≡ if_before item (stop_in fault) }
{
    let Some(stop) = fault else {
        return None;
    };
    if stop.item < item { Some(stop) } else { None }
}

// Kernels that run on a memory's own cells.

ghost use Rattle.std.specs.Prelude.{◌≡◌, ◌≤◌, ℕ, Bool, true, List, length, map};
ghost use Rattle.kernel_model.specs.Resolved.{IsResolved};
ghost use Rattle.kernel_model.specs.Meaning.{Target};
ghost use Rattle.kernel_code.specs.Coded.{IsCode};
ghost use Rattle.kernel_model.specs.Framed.{PlacesIn, target_of};
ghost use Rattle.kernel_model.specs.Law.{StopsUnchanged};
ghost use Rattle.rank_state.specs.declared.spans.Span.{Span};
ghost use Rattle.rank_state.specs.Core.{fault_of};
ghost use Rattle.rank_state.specs.Frames.{pane_after, closed};
ghost use Rattle.kernel_runs.specs.Saving.{place_cells};
ghost use Rattle.kernel_runs.specs.Here.{IsHere, core_on_gathered};

use crate::in_place::laws::runs_in_place;
use crate::in_place::saving::{put_back, save};
use kernel_code::{Code, run_on};
use kernel_model::types::KernelFault;
use kernel_model::types::views::Place;

/// A kernel that runs on a memory's own cells: what is the same for all elements that it runs for.
#[derive(Drop)]
pub struct KernelInPlace<'a> {
    /// The kernel's code.
    pub code: &'a Code<'a>,
    /// By argument whether its cells are put back after a fault.
    pub marks: &'a [bool],
    /// Whether a fault leaves all cells as they were by itself (`kernel_model::fault_order::unchanged_after_faults`):
    /// none is saved or put back then.
    pub clean: bool,
    /// The cells of all constants.
    pub constants: &'a [i32],
}

// Runs a kernel that leaves the memory as it was where it faults.
fn run_clean(
    kernel: &KernelInPlace<'_>,
    memory: &mut [i32],
    places: &[Place],
    scratch: &mut [i32],
) -> Option<KernelFault>
    requires code { IsCode kernel.now.code.now }
    requires fits { PlacesIn (length memory.old) places.now }
    requires params { length places.now ≡ kernel.now.code.now.kernel.now.params }
    requires scratch { kernel.now.code.now.slots ≤ length scratch.old }
    requires resolved { IsResolved (length kernel.now.constants.now) kernel.now.code.now.kernel.now }
    requires clean { StopsUnchanged kernel.now.code.now.kernel.now (map target_of places.now) kernel.now.constants.now }
    ensures fault { (marks : List Bool) (spans : List Span) (ts : List Target)
        → IsHere kernel.now.code.now.kernel.now kernel.now.constants.now (length memory.old) places.now marks spans ts
        → result ≡ fault_of (core_on_gathered kernel.now.code.now.kernel.now kernel.now.constants.now memory.old spans ts) }
    ensures memory { (marks : List Bool) (spans : List Span) (ts : List Target)
        → IsHere kernel.now.code.now.kernel.now kernel.now.constants.now (length memory.old) places.now marks spans ts
        → (item : ℕ) → memory.new
        ≡ closed spans (pane_after item (core_on_gathered kernel.now.code.now.kernel.now kernel.now.constants.now memory.old spans ts))
        memory.old }
{
    runs_in_place();
    run_on(kernel.code, memory, places, kernel.constants, scratch).err()
}

// Runs any kernel; where it faults, the cells of marked arguments are put back.
fn run_saved(
    kernel: &KernelInPlace<'_>,
    memory: &mut [i32],
    places: &[Place],
    saved: &mut [i32],
    scratch: &mut [i32],
) -> Option<KernelFault>
    requires code { IsCode kernel.now.code.now }
    requires fits { PlacesIn (length memory.old) places.now }
    requires params { length places.now ≡ kernel.now.code.now.kernel.now.params }
    requires marks { length kernel.now.marks.now ≡ length places.now }
    requires room { place_cells places.now ≤ length saved.old }
    requires scratch { kernel.now.code.now.slots ≤ length scratch.old }
    requires resolved { IsResolved (length kernel.now.constants.now) kernel.now.code.now.kernel.now }
    ensures fault { (spans : List Span) (ts : List Target)
        → IsHere kernel.now.code.now.kernel.now kernel.now.constants.now (length memory.old) places.now kernel.now.marks.now spans ts
        → result ≡ fault_of (core_on_gathered kernel.now.code.now.kernel.now kernel.now.constants.now memory.old spans ts) }
    ensures memory { (spans : List Span) (ts : List Target)
        → IsHere kernel.now.code.now.kernel.now kernel.now.constants.now (length memory.old) places.now kernel.now.marks.now spans ts
        → (item : ℕ) → memory.new
        ≡ closed spans (pane_after item (core_on_gathered kernel.now.code.now.kernel.now kernel.now.constants.now memory.old spans ts))
        memory.old }
{
    runs_in_place();
    save(memory, places, kernel.marks, saved);
    match run_on(kernel.code, memory, places, kernel.constants, scratch) {
        Ok(()) => None,
        Err(fault) => {
            put_back(memory, places, kernel.marks, saved);
            Some(fault)
        }
    }
}

/// Runs a kernel on a memory's own cells, those at the places of its arguments. Where it faults, the cells of marked
/// arguments are put back, and the fault is answered.
///
/// So it is a run on windows and their end, for all spans that gather windows in which the arguments stand as they do
/// here, and whose written ones have marked arguments alone: the memory has in the end what that run leaves of the
/// written spans, and after a fault it is as it was.
///
/// `saved` has room for the cells of all places, and `scratch` for the code's slots, whatever they hold. It takes no
/// memory.
pub fn run_here(
    kernel: &KernelInPlace<'_>,
    memory: &mut [i32],
    places: &[Place],
    saved: &mut [i32],
    scratch: &mut [i32],
) -> Option<KernelFault>
    requires code { IsCode kernel.now.code.now }
    requires fits { PlacesIn (length memory.old) places.now }
    requires params { length places.now ≡ kernel.now.code.now.kernel.now.params }
    requires marks { length kernel.now.marks.now ≡ length places.now }
    requires room { place_cells places.now ≤ length saved.old }
    requires scratch { kernel.now.code.now.slots ≤ length scratch.old }
    requires resolved { IsResolved (length kernel.now.constants.now) kernel.now.code.now.kernel.now }
    requires clean { kernel.now.clean ≡ true
        → StopsUnchanged kernel.now.code.now.kernel.now (map target_of places.now) kernel.now.constants.now }
    ensures fault { (spans : List Span) (ts : List Target)
        → IsHere kernel.now.code.now.kernel.now kernel.now.constants.now (length memory.old) places.now kernel.now.marks.now spans ts
        → result ≡ fault_of (core_on_gathered kernel.now.code.now.kernel.now kernel.now.constants.now memory.old spans ts) }
    ensures memory { (spans : List Span) (ts : List Target)
        → IsHere kernel.now.code.now.kernel.now kernel.now.constants.now (length memory.old) places.now kernel.now.marks.now spans ts
        → (item : ℕ) → memory.new
        ≡ closed spans (pane_after item (core_on_gathered kernel.now.code.now.kernel.now kernel.now.constants.now memory.old spans ts))
        memory.old }
{
    if kernel.clean {
        run_clean(kernel, memory, places, scratch)
    } else {
        run_saved(kernel, memory, places, saved, scratch)
    }
}

// A kernel's run on an element's frame.

ghost use Rattle.std.specs.Prelude.{◌≡◌, ◌<◌, length, map};
ghost use Rattle.kernel_model.specs.Framed.{PlacesIn, target_of};
ghost use Rattle.mesh_decl.specs.Mesh.{set_size};
ghost use Rattle.bound_program.specs.Values.{bound_of, site_of};
ghost use Rattle.bound_program.specs.Fits.{SiteFits};
ghost use Rattle.rank_state.specs.Core.{ran_of};
ghost use Rattle.bound_plan.specs.Windows.{frame_cells, frame_windows};
ghost use Rattle.rank_program.specs.Rooms.{HasKernelRoom};
ghost use Rattle.rank_program.specs.Sound.{Takes, layout_in};

use crate::items::loop_of;
use crate::room::{KernelRoom, open_places};
use crate::runnable::Runnable;
use bound_program::{Bound, Site};
use kernel_code::run_on;
use kernel_model::types::KernelFault;
use kernel_model::types::views::Place;
use rank_layout::put_windows;

// Puts down where the windows of a loop's arguments stand in an element's frame.
fn put_frame(bound: &Bound, site: &Site, element: u32, places: &mut [Place])
    requires site { SiteFits (bound_of bound.now) (site_of site.now) }
    requires element { element < set_size bound.now.mesh site.now.set }
    requires count { length places.old ≡ length site.now.args.items }
    ensures count { length places.new ≡ length site.now.args.items }
    ensures windows { map target_of places.new ≡ frame_windows (bound_of bound.now) site.now.args.items element }
    ensures within { PlacesIn (length (frame_cells (bound_of bound.now) site.now.args.items element)) places.new }
{
    let _cells = put_windows(bound, &site.args, element, places);
}

/// Runs the kernel of the loop that is the item for an element, with the values of all constants, on the cells of its
/// windows, one window after another. Takes no memory.
///
/// # Errors
/// The first fault of the run; the windows then mean nothing.
pub fn run_kernel(
    program: &Runnable<'_>,
    item: u32,
    element: u32,
    constants: &[i32],
    windows: &mut [i32],
    room: &mut KernelRoom,
) -> Result<(), KernelFault>
    requires takes { Takes program.now item element (length constants.now) (length windows.old) }
    requires room { HasKernelRoom program.now.locals room.old }
    ensures ran { ran_of windows.new result ≡ (layout_in program.now).core item element constants.now windows.old }
    ensures room { HasKernelRoom program.now.locals room.new }
{
    let program = program.parts();
    run_model::items_are_there();
    run_model::constants_are_read();
    let number = loop_of(program.bound, item) as usize;
    let site = &program.bound.sites[number];
    let code = &program.codes[site.kernel as usize];
    open_places(site.args.len(), &mut room.places);
    let places = room.places.as_mut_slice();
    put_frame(program.bound, site, element, places);
    run_on(code, windows, places, constants, &mut room.locals)
}

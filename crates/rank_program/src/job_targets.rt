// Where the windows of tasks' arguments stand.

ghost use Rattle.std.specs.Prelude.{◌≡◌, ◌<◌, ◌≤◌, ◌+◌, ℕ, ℤ, List, [], All, map, length, vec_capacity};
ghost use Rattle.mesh_decl.specs.Mesh.{set_size};
ghost use Rattle.kernel_model.specs.Framed.{target_of, PlacesIn};
ghost use Rattle.bound_program.specs.Values.{bound_of, site_of};
ghost use Rattle.bound_program.specs.Fits.{SiteFits};
ghost use Rattle.bound_plan.specs.Windows.{frame_cells, frame_windows};
ghost use Rattle.rank_program.specs.Jobs.{Accepts, job_core, task_at};
ghost use Rattle.rank_layout.specs.Numbered.{ArgThere};
ghost use Rattle.rank_program.specs.Targets.{AllTargets};
ghost use Rattle.rank_program.specs.Sound.{Takes, layout_in, targeted_in};

use crate::items::loop_of;
use crate::room::open_places;
use crate::runnable::Runnable;
use crate::{KernelJob, Targets, Task};
use bound_program::{Arg, Bound, Site};
use rank_layout::put_windows;
use smallvec::SmallVec;
use std::alloc::Global;

// Where the windows of a loop's arguments stand in an element's frame.
fn targets_of(alloc: Global, bound: &Bound, args: &[Arg], element: u32) -> Targets
    requires there { All (ArgThere (bound_of bound.now) element) args.now }
    requires few { length args.now ≤ 16 }
    ensures places { map target_of result.places.items ≡ frame_windows (bound_of bound.now) args.now element }
    ensures within { PlacesIn (length (frame_cells (bound_of bound.now) args.now element)) result.places.items }
    ensures count { length result.places.items ≡ length args.now }
{
    let mut places = SmallVec::new(alloc);
    open_places(args.len(), &mut places);
    let _cells = put_windows(bound, args, element, places.as_mut_slice());
    Targets { places }
}

// The targets of all tasks, by the arguments.
fn push_targets(bound: &Bound, args: &[Arg], tasks: &[Task], targets: &mut Vec<Targets>)
    requires there { (i : ℕ) → i < length tasks.now → All (ArgThere (bound_of bound.now) (task_at tasks.now i).element) args.now }
    requires few { length args.now ≤ 16 }
    requires empty { targets.old.items ≡ [] }
    requires room { length tasks.now ≤ vec_capacity targets.old }
    ensures all { AllTargets (bound_of bound.now) args.now tasks.now targets.new.items }
    ensures room { vec_capacity targets.new ≡ vec_capacity targets.old }
{
    let alloc = *targets.allocator();
    for task in tasks {
        targets.push_reserved(targets_of(alloc, bound, args, task.element));
    }
}

// Puts down where the windows of a loop's arguments stand in the frames of the tasks' elements. `targets` is lent
// empty, with room for as many as there are tasks.
fn push_all(bound: &Bound, site: &Site, tasks: &[Task], targets: &mut Vec<Targets>)
    requires site { SiteFits (bound_of bound.now) (site_of site.now) }
    requires elements { (i : ℕ) → i < length tasks.now → (task_at tasks.now i).element < set_size bound.now.mesh site.now.set }
    requires empty { targets.old.items ≡ [] }
    requires room { length tasks.now ≤ vec_capacity targets.old }
    ensures all { AllTargets (bound_of bound.now) (site_of site.now).args tasks.now targets.new.items }
    ensures room { vec_capacity targets.new ≡ vec_capacity targets.old }
{
    push_targets(bound, &site.args, tasks, targets);
}

/// Puts down where the windows of the loop's arguments stand among the cells of each task's element. `targets` is lent
/// empty, with room for as many as there are tasks. Takes no memory.
pub fn put_targets(program: &Runnable<'_>, item: u32, tasks: &[Task], targets: &mut Vec<Targets>)
    requires some { 0 < length tasks.now }
    requires takes { (constants : ℕ) × ((i : ℕ) → i < length tasks.now
        → Takes program.now item (task_at tasks.now i).element constants (task_at tasks.now i).cells) }
    requires empty { targets.old.items ≡ [] }
    requires room { length tasks.now ≤ vec_capacity targets.old }
    ensures targeted { targeted_in program.now item tasks.now targets.new.items }
    ensures room { vec_capacity targets.new ≡ vec_capacity targets.old }
{
    let program = program.parts();
    run_model::items_are_there();
    let site = &program.bound.sites[loop_of(program.bound, item) as usize];
    push_all(program.bound, site, tasks, targets);
}

/// The runs of the kernel of the loop that is the item for these tasks with their targets, with the values of all
/// constants. Takes no memory.
pub fn job<'t>(
    program: &'t Runnable<'t>,
    item: u32,
    tasks: &'t [Task],
    targets: &'t [Targets],
    constants: &'t [i32],
) -> KernelJob<'t>
    requires some { 0 < length tasks.now }
    requires takes { (i : ℕ) → i < length tasks.now
        → Takes program.now item (task_at tasks.now i).element (length constants.now) (task_at tasks.now i).cells }
    requires targeted { targeted_in program.now item tasks.now targets.now }
    ensures tasks { result.tasks.now ≡ tasks.now }
    ensures accepts { (i n : ℕ) → i < length tasks.now → (task_at tasks.now i).cells + program.now.locals < n → Accepts result i n }
    ensures core { (i : ℕ) (ws : List ℤ) → i < length tasks.now → length ws ≡ (task_at tasks.now i).cells
        → job_core result i ws ≡ (layout_in program.now).core item (task_at tasks.now i).element constants.now ws }
{
    let program = program.parts();
    run_model::items_are_there();
    run_model::constants_are_read();
    let number = loop_of(program.bound, item) as usize;
    let site = &program.bound.sites[number];
    KernelJob {
        code: &program.codes[site.kernel as usize],
        tasks,
        targets,
        constants,
    }
}

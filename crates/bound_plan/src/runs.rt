// Schedules of a plan.
ghost use Rattle.bound_plan.specs.Laws.{PlansRunAsSequential};

use crate::layout::layouts_fit;
use crate::setup::{setups_are_coloured, setups_are_lawful};
use crate::steps::plans_are_by_place;
use kernel_model::types::KernelFault;

/// A law: every list of steps that a proper plan accepts, run on flat buffers, prints what the sequential run of the
/// program prints, and stops exactly where that has its first fault; where it has none, each owner's cells and the
/// variables end with the sequential values.
pub fn plans_run_as_sequential()
    ensures { PlansRunAsSequential }
{
    setups_are_lawful();
    setups_are_coloured();
    layouts_fit();
    plans_are_by_place();
    schedule_model::flat_machine::flat_runs_as_sequential::<KernelFault>();
}

//! What the meaning of kernels gives to the theorem on schedules: for one element, the run of a kernel that obeys its
//! modes depends on what its OP_READ and OP_RW arguments reach, and on nothing else.
ghost use Rattle.run_model.specs.ElementRun.{ElementRunsAreIndependent, ElementRunsAreIndependentByTouches, ElementRunsGiveEffects};
ghost use Rattle.run_model.specs.ElementRun.{AnyListsServe, ElementRunsAgree, ElementRunsOnArrays};
ghost use Rattle.run_model.specs.ElementRun.{ElementRunsKeepRange, ElementRunsKeepReads};
ghost use Rattle.run_model.specs.OnWindows.{ElementRunsOnWindows};
ghost use Rattle.run_model.specs.RunsKernels.{SetupsHaveKernels};

use kernel_model::types::KernelFault;

/// A law: where a run for one element, on the cells of dats and variables, is that of a kernel over any lists that hold
/// the cells which its arguments reach, and the kernel obeys its modes, the run is independent by its arguments.
pub fn element_runs_are_independent()
    ensures { ElementRunsAreIndependent }
{
    kernel_model::independence();
    kernel_model::reads_stay();
    op_num::reductions::reductions_commute();
}

/// A law: such a run is independent by the touches of cells, where constants are read; and it is given by whether it
/// faults and by what it makes of each cell's old value, both of them functions of the cells that are read.
pub fn element_runs_give_effects()
    ensures independent { ElementRunsAreIndependentByTouches }
    ensures effects { ElementRunsGiveEffects }
{
    element_runs_are_independent();
    schedule_model::schedule_laws::arguments_give_touches::<KernelFault>();
    schedule_model::independence_gives_effects::<KernelFault>();
}

/// A law: such a run keeps all values in range, of any kernel; and of one that obeys its modes, each cell that OP_READ
/// arguments alone reach, or none.
pub fn element_runs_keep()
    ensures range { ElementRunsKeepRange }
    ensures reads { ElementRunsKeepReads }
{
    kernel_model::range_stays();
    kernel_model::independence();
    kernel_model::reads_stay();
    op_num::reductions::reductions_commute();
}

/// A law: such a run, of any kernel, ends as the kernel's meaning does over any lists that hold the cells which its
/// arguments reach. So two runs of one kernel for one element with the same constants, as on whole arrays and on a
/// frame, are equal.
pub fn element_runs_agree()
    ensures lists { AnyListsServe }
    ensures runs { ElementRunsAgree }
{
    kernel_model::transport();
}

/// A law: over whole arrays that hold a store, any kernel's meaning leaves arrays that hold the store after the run, or
/// both have the same fault.
pub fn element_runs_on_arrays()
    ensures { ElementRunsOnArrays }
{
    element_runs_agree();
    kernel_model::others_stay();
}

/// A law: such a run is that of the kernel's meaning on the values of its windows, one after another in one list: a
/// frame. So that meaning is what a layout of the flat machine asks for.
pub fn element_runs_on_windows()
    ensures { ElementRunsOnWindows }
{
    element_runs_agree();
    kernel_model::shape_stays();
}

/// A law: a setup whose loops run kernels for their elements has what the theorem on schedules asks of kernels.
pub fn setups_have_kernels()
    ensures { SetupsHaveKernels }
{
    element_runs_keep();
    element_runs_give_effects();
}

//! The sequential run of a bound program, as definitions: items in order, each loop one element after another in its
//! set's original order, on the values of all cells. It knows nothing of ranks.
#![tactic(auto)]

ghost use Rattle.std.specs.Prelude.{◌≡◌};
ghost use Rattle.bound_program.specs.Values.{BoundValue};
ghost use Rattle.schedule_model.specs.Sequential.{sequential};
ghost use Rattle.run_model.specs.Programs.{program_of, run_of_program};
ghost use Rattle.run_model.specs.Laws.{ActsAreThere, ElementsRunKernels, LoopsAreThere, LoopsKeepRange, LoopsKeepReads, WindowsAreReached};
ghost use Rattle.run_model.specs.Constants.{ConstantsAreNumbered, ConstantsAreRead};
ghost use Rattle.run_model.specs.Memory.{ElementsRunOnMemory, FirstMemoryHolds, MemoryEndsWithVariables};
ghost use Rattle.run_model.specs.Memory.{MemoryHasDats, MemoryIsInOrder, MemoryTakesAssignments, MemoryTakesZeros};
ghost use Rattle.run_model.specs.Ranges.{FirstValuesInRange, HostsKeepRange, RunsKeepRange};
ghost use Rattle.run_model.specs.Stops.{RunsStopAtFaults};

/// The run of a program is the sequential run of the program that the theorem on schedules sees.
pub fn runs_as_sequential()
    ensures { (b : BoundValue) → run_of_program b ≡ sequential (program_of b) }
{}

/// A law: the loop of an item is there, and all that its statement names.
pub fn items_are_there()
    ensures loops { LoopsAreThere }
    ensures acts { ActsAreThere }
{}

/// A law: an item that is a loop runs its kernel for each element, with the values of the program's constants, over any
/// lists that hold the cells which its arguments reach.
pub fn elements_run_kernels()
    ensures { ElementsRunKernels }
{
    kernel_model::shape_stays();
}

/// A law: so it keeps all values in range; and where its kernel obeys its modes, each cell that OP_READ arguments alone
/// reach, or none.
pub fn loops_keep()
    ensures range { LoopsKeepRange }
    ensures reads { LoopsKeepReads }
{
    elements_run_kernels();
    crate::element_runs::element_runs_keep();
}

/// A law: where the mesh and the variables begin with numbers of 32 bits, all cells hold such numbers before the run;
/// and a statement that is no loop leaves such numbers in the variables.
pub fn values_stay_in_range()
    ensures first { FirstValuesInRange }
    ensures hosts { HostsKeepRange }
{
    kernel_model::operators_stay_in_range();
}

/// A law: so, where each loop's kernel obeys its modes, all values are such numbers throughout the run.
pub fn runs_keep_range()
    ensures { RunsKeepRange }
{
    loops_keep();
    values_stay_in_range();
}

/// A law: over one memory that holds all cells, the dats in order and then the variables, the meaning of the loop's
/// kernel leaves a memory that holds the cells after the element's run, or both have the same fault.
pub fn elements_run_on_memory()
    ensures { ElementsRunOnMemory }
{
    elements_run_kernels();
    crate::element_runs::element_runs_on_arrays();
    kernel_model::shape_stays();
}

/// A law: dats and variables stand in that memory in order; what it is before the run, and what an assignment to a
/// variable's cell, or zeros in all of its cells, make of it.
pub fn memory_holds()
    ensures order { MemoryIsInOrder }
    ensures first { FirstMemoryHolds }
    ensures variables { MemoryEndsWithVariables }
    ensures dats { MemoryHasDats }
    ensures assignments { MemoryTakesAssignments }
    ensures zeros { MemoryTakesZeros }
{}

/// A law: the windows of an element's run are the cells that its arguments reach, each once.
pub fn windows_are_reached()
    ensures { WindowsAreReached }
{}

/// A law: the constants that kernels read are the cells of constant variables, each by its number; and no loop modifies
/// one.
pub fn constants_are_read()
    ensures numbered { ConstantsAreNumbered }
    ensures read { ConstantsAreRead }
{}

/// A law: a run that stopped did so at its first fault, with what was printed before that item. An element that faults
/// leaves what the earlier elements of its loop stored, and a statement that faults leaves all as it was.
pub fn runs_stop_at_faults()
    ensures { RunsStopAtFaults }
{}

pub mod element_runs;
pub mod gather;
pub mod sequential_run;

// The law of kernels whose faults come first, as the contract of a function that does nothing.

ghost use Rattle.kernel_model.specs.Law.{UnchangedAfterFaults};

/// A law: over arguments with at least so many components as it was judged for, a kernel whose faults come first leaves
/// all cells as they were where it faults.
pub fn unchanged_after_faults()
    ensures { UnchangedAfterFaults }
{}

// The laws of kernels, each as the contract of a function that does nothing.

ghost use Rattle.kernel_model.specs.Independence.{Independence, OthersStay, RangeStays, ReadsStay, ShapeStays, StoredIndependence};
ghost use Rattle.kernel_model.specs.Independence.{Transport};
ghost use Rattle.kernel_model.specs.Operators.{OperatorsStayInRange};
ghost use Rattle.kernel_model.specs.Refusals.{ObeysUnlessBroken, OneRefusal};
ghost use Rattle.kernel_model.specs.StoredThrough.{UnstoredStay};
ghost use Rattle.kernel_model.specs.Trees.{RunsAlike, WalksAlike};
ghost use Rattle.kernel_model.specs.Walk.{WalkFinds};

/// A law: over two lists of targets with the same aliases, and two stores that agree where OP_READ and OP_RW
/// arguments reach, a kernel that obeys its modes has the same fault or none, and without one makes the same changes.
pub fn independence()
    ensures { Independence }
{}

/// A law: the same where the aliases of OP_READ arguments among each other differ: no kernel that obeys its modes can
/// tell.
pub fn stored_independence()
    ensures { StoredIndependence }
{}

/// A law: over copies of the cells that its arguments reach, any kernel has the same fault or none, and leaves copies,
/// after a fault too.
pub fn transport()
    ensures { Transport }
{}

/// A law: a cell that no argument reaches stays, after a fault too.
pub fn others_stay()
    ensures { OthersStay }
{}

/// A law: a cell that OP_READ arguments alone reach stays under a kernel that obeys its modes, after a fault too.
pub fn reads_stay()
    ensures { ReadsStay }
{}

/// A law: a cell that is reached only by arguments through which the kernel's text stores nothing, or by none, stays
/// under any kernel, after a fault too.
pub fn unstored_stay()
    ensures { UnstoredStay }
{}

/// A law: any run keeps how many arrays there are and how long each is, after a fault too.
pub fn shape_stays()
    ensures { ShapeStays }
{}

/// A law: where all cells and constants hold numbers of 32 bits, all cells do after a run, after a fault too.
pub fn range_stays()
    ensures { RangeStays }
{}

/// A law: operators on numbers of 32 bits have numbers of 32 bits, where they have no fault.
pub fn operators_stay_in_range()
    ensures { OperatorsStayInRange }
{}

/// A law: a kernel obeys its modes exactly where it breaks none of the eight access rules at any place, and of the
/// rules that it breaks at most one stands first: at the earliest place, and there with the least number.
pub fn rules_are_broken()
    ensures obeys { ObeysUnlessBroken }
    ensures first { OneRefusal }
{}

/// A law: one walk over a kernel, with the components that every path has assigned, finds its refusal, and finds none
/// exactly where the kernel obeys its modes.
pub fn walk_finds()
    ensures { WalkFinds }
{}

/// A law: where a kernel lies in memory is nothing to it. Kernels with one tree run alike, and the walk finds the same
/// in them.
pub fn kernels_are_trees()
    ensures runs { RunsAlike }
    ensures walks { WalksAlike }
{}

// That a run on several ranks is one.
ghost use Rattle.bound_plan.specs.OneRun.{DumpsAreOne, KernelsAreOne, ProgramsAreOne};

/// A law: kernels with the same trees have them in the same places, and a program with such kernels is one.
pub fn one_program()
    ensures kernels { KernelsAreOne }
    ensures programs { ProgramsAreOne }
{
    kernel_model::kernels_are_trees();
}

/// A law: by the same steps two runs on several ranks have one dump, where their kernels have the same trees, their
/// owners are the same, and their plans are alike.
pub fn one_dump()
    ensures { DumpsAreOne }
{
    kernel_model::kernels_are_trees();
    loop_plan::one_plan();
}

// Plans are there.
ghost use Rattle.loop_plan.specs.Laws.{PlansExist};

/// A program that fits has a plan with least colours in blocks of any size above 0, on the local meshes of any owners
/// and new numbers of its mesh.
pub fn some_plan()
    ensures { PlansExist }
{}

// What the steps of a schedule say of items, ranks and places.
ghost use Rattle.rank_layout.specs.StepLaws.{StepsStand};

/// A law: the item of a message, or of an element's run, is a Free loop of the program, its ranks are there, and the
/// element stands at a place that the rank executes.
pub fn steps_stand()
    ensures { StepsStand }
{
    run_model::items_are_there();
    local_mesh::rank_meshes_are_closed();
}

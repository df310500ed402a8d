// Where the cells of elements stand on their owners.
ghost use Rattle.rank_layout.specs.OwnedLaws.{FramesFit, OwnedStand, ReducesAreThere, VariablesStand};

/// A law: an element's frame has no more cells than the widest loop's windows have together.
pub fn frames_fit()
    ensures { FramesFit }
{}

/// A law: the spans of the arguments on dats in the buffers of owners, each once, and the variables' cells behind them
/// are the windows of an element of an Ordered loop.
pub fn owned_stand()
    ensures { OwnedStand }
{
    mesh_decl::declarations_hold();
    run_model::items_are_there();
    bound_plan::frames_have_cells();
    bound_plan::elements_stand();
    frames_fit();
}

/// A law: the variables' cells by their numbers are those of all variables, in the order of the program.
pub fn variables_stand()
    ensures { VariablesStand }
{}

/// A law: a Reduce stands behind its loop, which is one of the program.
pub fn reduces_are_there()
    ensures { ReducesAreThere }
{
    run_model::items_are_there();
    bound_plan::setups_have_parts();
}

// The law of runs at places, as the contract of a function that does nothing.

ghost use Rattle.deep_halo.specs.Placed.{PlacedElementsRun};

/// A law: a kernel's run in place on a memory in which the cells of an element's windows have places ends as the
/// element's run on any store whose values the memory has there: with its fault, and then no cell is changed, or with
/// its values at the places of these cells, and then no other is changed.
pub fn placed_elements_run()
    ensures { PlacedElementsRun }
{
    run_model::windows_are_reached();
    kernel_model::shape_stays();
}

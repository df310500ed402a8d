//! The sequential run of a bound program as its reader expects it, on whole arrays: one for each dat and one for each
//! variable. `main`'s items in order, each loop one element after another in its set's original order, up to the first
//! fault.
ghost use Rattle.run_model.specs.SequentialLaws.{ItemsAgree, RunsAreOne};

/// A law: for each program that fits, the run on whole arrays is the sequential run that the theorem on schedules sees:
/// before each item both have the same values and printed the same, or both stopped at the same element or statement by
/// the same fault.
pub fn runs_are_one()
    ensures items { ItemsAgree }
    ensures runs { RunsAreOne }
{
    mesh_decl::declarations_hold();
    kernel_model::transport();
    kernel_model::others_stay();
    kernel_model::shape_stays();
    crate::windows_are_reached();
    crate::constants_are_read();
    crate::items_are_there();
}

// The laws of the lower crates on which the laws here rest.
ghost use Rattle.bound_plan.specs.Given.{AlikeAcceptAlike, FrameLaws, HaloLaws, ItemLaws, KernelLaws, NumberLaws};

use kernel_model::types::KernelFault;

// Of local numbers, items, halos and meshes, and outlines.
pub(crate) fn meshes_and_items()
    ensures numbers { NumberLaws }
    ensures items { ItemLaws }
    ensures halos { HaloLaws }
    ensures outlines { AlikeAcceptAlike }
{
    lemmas::numbers_are_listed();
    mesh_decl::declarations_hold();
    local_mesh::halo_lists::execute_halo_owns_a_target();
    local_mesh::halo_lists::executed_targets_are_copies();
    local_mesh::halo_lists::core_targets_are_owned();
    local_mesh::halo_lists::imports_are_of_others();
    local_mesh::owned_come_first();
    local_mesh::executed_come_first();
    local_mesh::originals_are_distinct();
    local_mesh::originals_are_copies();
    colouring::common_targets_conflict();
    loop_plan::imports_are_exports();
    run_model::items_are_there();
    schedule_steps::alike_outlines_accept_alike();
}

// Of kernels, the values of runs, and frames.
pub(crate) fn kernels_and_frames()
    ensures kernels { KernelLaws }
    ensures frames { FrameLaws }
{
    kernel_model::shape_stays();
    schedule_model::schedule_laws::windows_are_modified::<KernelFault>();
    run_model::element_runs::element_runs_give_effects();
    run_model::element_runs::element_runs_on_windows();
    run_model::items_are_there();
    run_model::elements_run_kernels();
    run_model::loops_keep();
    run_model::constants_are_read();
    run_model::windows_are_reached();
    run_model::values_stay_in_range();
}

// What the spans of messages and windows say.
ghost use Rattle.rank_layout.specs.MessageLaws.{ExportsStand, ImportsStand};
ghost use Rattle.rank_layout.specs.WindowLaws.{ArgsAreHere, ArgsHaveCells, DatWindowsStand, ElementWindowsStand};
ghost use Rattle.rank_layout.specs.First.{FirstCellsStand, MeshesAreClosed};

use crate::laws_owned::frames_fit;
use crate::scalars_stand;

/// A law: the spans of a message by local numbers are where its cells stand on its sender and on its receiver, and at
/// the receiver each of them arrives.
pub fn messages_stand()
    ensures exports { ExportsStand }
    ensures imports { ImportsStand }
{
    lemmas::numbers_are_listed();
    mesh_decl::declarations_hold();
    bound_plan::elements_stand();
    bound_plan::messages_have_cells();
}

/// A law: the spans of the arguments on dats by local numbers, each once, are where the windows on dats of an element
/// stand on a rank that executes it. All of them are within the rank's buffer, and have the cells that the element
/// reaches.
pub fn windows_stand()
    ensures stand { DatWindowsStand }
    ensures here { ArgsAreHere }
    ensures cells { ArgsHaveCells }
{
    mesh_decl::declarations_hold();
    local_mesh::rank_meshes_are_closed();
    bound_plan::elements_stand();
}

/// A law: those spans, with the scalars of the loop behind them, are the windows of the element.
pub fn element_windows_stand()
    ensures { ElementWindowsStand }
{
    windows_stand();
    bound_plan::frames_have_cells();
    frames_fit();
    scalars_stand();
}

/// A law: the mesh's values in each copy, and the variables' first values, are the cells with which the machine starts.
/// Each rank has the targets of what it executes.
pub fn first_cells_stand()
    ensures stand { FirstCellsStand }
    ensures closed { MeshesAreClosed }
{
    mesh_decl::declarations_hold();
    local_mesh::rank_meshes_are_closed();
    local_mesh::cells_are_of_copies();
    run_model::memory_holds();
    run_model::gather::host_acts::variables_hold();
    bound_plan::elements_stand();
}

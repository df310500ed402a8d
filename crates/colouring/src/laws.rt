// What colours say of places in conflict.
ghost use Rattle.colouring.specs.Laws.{PlacesAreOrdered, BlocksDiffer, CommonTargetsConflict, TargetsAreOrdered};

use local_mesh::originals_are_distinct;
use mesh_decl::Mesh;

/// Of two places in conflict one goes before the other by the colours: their blocks have different colours, or they
/// have in one block.
pub fn conflicting_places_are_ordered()
    ensures { PlacesAreOrdered }
{}

/// Two places that a rank executes and that reduce into one element of a dat are in conflict. Elements have their
/// original numbers.
pub fn common_targets_conflict()
    ensures { CommonTargetsConflict }
{
    originals_are_distinct();
}

/// Of two elements that a rank executes and that reduce into one element of a dat, one goes before the other by an
/// outline with these colours. Elements have their original numbers.
pub fn common_targets_are_ordered(mesh: &Mesh)
    ensures { TargetsAreOrdered mesh.now }
{
    originals_are_distinct();
    mesh.is_in_range();
}

/// Two blocks with places in conflict have different colours.
pub fn conflicting_blocks_differ()
    ensures { BlocksDiffer }
{}

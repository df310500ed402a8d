// Where the values of elements stand on their owners.
ghost use Rattle.rank_program.specs.CopyLaws.{CopiesStand};

/// A law: the values of an element of a dat stand at its local number on its owner.
pub fn copies_stand()
    ensures { CopiesStand }
{
    mesh_decl::declarations_hold();
    bound_plan::elements_stand();
}

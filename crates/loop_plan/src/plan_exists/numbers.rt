// New numbers are there.
ghost use Rattle.loop_plan.specs.Laws.{NumbersExist};

use mesh_decl::declarations_hold;

/// Whatever is asked for the new numbers of a mesh, there are such numbers, or the refusal.
pub fn some_numbers()
    ensures { NumbersExist }
{
    declarations_hold();
}

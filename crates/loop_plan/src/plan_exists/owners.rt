// Owners are there.
ghost use Rattle.loop_plan.specs.Laws.{OwnersExist, OutcomesFit};

use mesh_decl::declarations_hold;
use partition::part_text::one_outcome;

/// Whatever is asked for the owners of a mesh among 1 to 64 ranks, there are such owners, or the refusal.
pub fn some_owners()
    ensures { OwnersExist }
{
    declarations_hold();
    one_outcome();
}

/// Owners and new numbers that come of what is asked for are those of the mesh, among as many ranks.
pub fn outcomes_fit()
    ensures { OutcomesFit }
{}

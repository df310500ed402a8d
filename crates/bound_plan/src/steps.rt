// The steps of a plan.
ghost use Rattle.bound_plan.specs.Laws.{PlansAcceptByPlace, PlansAreByPlace};

use crate::given::meshes_and_items;

/// A law: the steps of a proper plan, and their order, are those of the theorem by places.
pub fn plans_are_by_place()
    ensures alike { PlansAreByPlace }
    ensures accept { PlansAcceptByPlace }
{
    meshes_and_items();
}

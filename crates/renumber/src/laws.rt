// That a renumbering is one.
ghost use Rattle.renumber.specs.OneNumbering.{IsOneIdentity, IsOneCuthillMcKee};

use crate::breadth_order::one_taking_order;

/// There is one renumbering of a mesh that keeps all numbers, and one of Cuthill and McKee by each map.
pub fn one_numbering()
    ensures identity { IsOneIdentity }
    ensures cuthill_mckee { IsOneCuthillMcKee }
{
    one_taking_order();
}

// What the code of a machine asks of the layout beside the theorem.
ghost use Rattle.bound_plan.specs.Machine.{DatsComeFirst, ElementsStand, FramesHaveCellsOnce, MessagesHaveCells};

use crate::given::meshes_and_items;
use crate::layout::frames_are_reached;

/// A law: an element's frame has the windows on dats first and then those on variables, and no cell twice.
pub fn frames_have_cells()
    ensures dats { DatsComeFirst }
    ensures once { FramesHaveCellsOnce }
{
    frames_are_reached();
}

/// A law: a message has some cells, none of them twice, and each arrives at the receiver.
pub fn messages_have_cells()
    ensures { MessagesHaveCells }
{
    meshes_and_items();
}

/// A law: an element of which a rank has a copy stands at one local number, and the values of a local element of a dat
/// stand side by side in the rank's buffer, from `bases[dat] + local * dim` on.
pub fn elements_stand()
    ensures { ElementsStand }
{
    meshes_and_items();
}

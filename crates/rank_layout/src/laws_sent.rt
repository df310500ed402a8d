// The messages of a plan's steps.
ghost use Rattle.rank_layout.specs.SendLaws.{ExportsAreFew, MessagesHaveRoom, RoomsStand, SendsStand, ReceivesStand};

use crate::laws::messages_stand;

/// A law: what is exported of a set from one rank to another are fewer than 2 ^ 32 elements.
pub fn exports_are_few()
    ensures { ExportsAreFew }
{
    lemmas::numbers_are_listed();
    mesh_decl::declarations_hold();
    bound_plan::elements_stand();
    bound_plan::messages_have_cells();
}

// A law: a message has no more spans than all dats have together between its ranks.
fn messages_have_room()
    ensures { MessagesHaveRoom }
{}

/// A law: what is enough for the frames of all loops and for the messages between any two ranks where every dat is
/// exchanged is enough for the program.
pub fn rooms_stand()
    ensures { RoomsStand }
{
    messages_have_room();
}

/// A law: the spans of a message on its sender are there, and have its cells, of which there are some.
pub fn sends_stand()
    ensures { SendsStand }
{
    lemmas::numbers_are_listed();
    mesh_decl::declarations_hold();
    bound_plan::elements_stand();
    bound_plan::messages_have_cells();
    messages_stand();
}

/// A law: the spans of a message on its receiver are there, as many as on its sender, and each of their cells arrives.
pub fn receives_stand()
    ensures { ReceivesStand }
{
    lemmas::numbers_are_listed();
    mesh_decl::declarations_hold();
    bound_plan::elements_stand();
    bound_plan::messages_have_cells();
    messages_stand();
}

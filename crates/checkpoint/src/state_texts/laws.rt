// Laws of what files say, each as the contract of a function that does nothing.
ghost use Rattle.checkpoint.specs.StateTextLaws.{SaysOneState, SaysOneRefusal, SaysNotBoth, SaysSomething};
ghost use Rattle.checkpoint.specs.StateTextLaws.{NamesArePlain, WrittenStatesAreRead, CutsAreRead};

/// A law: a file says one state, or by one number and one line why it says none, and never both.
pub fn one_state()
    ensures state { SaysOneState }
    ensures refusal { SaysOneRefusal }
    ensures not_both { SaysNotBoth }
{
    op_num::number_is_read();
}

/// A law: it always says one of both.
pub fn some_state()
    ensures { SaysSomething }
{
    mesh_decl::declarations_hold();
}

/// A law: a state that was written behind any bytes is what these say, where no name ends a line and the values are of
/// 32 bits.
pub fn written_states_are_read()
    ensures { WrittenStatesAreRead }
{
    op_num::printed_is_read();
    mesh_decl::declarations_hold();
}

/// A law: so is the state before an item, which the head of a program prints there, and its text stands behind what was
/// printed before.
pub fn cuts_are_read()
    ensures { CutsAreRead }
{
    op_num::printed_is_read();
    mesh_decl::declarations_hold();
}

/// A law: C names end no line.
pub fn names_are_plain()
    ensures { NamesArePlain }
{}

// Needs, executed elements and messages.
ghost use Rattle.chain_model.specs.Counts.{MessagesAreFew};
ghost use Rattle.chain_model.specs.Laws.{SlicesAreBackwards};

/// A law: what ranks need and execute goes backwards, from the end of a chain to its start, item by item.
pub fn slices_are_backwards()
    ensures { SlicesAreBackwards }
{}

/// A law: there is at most one message for each chain and two ranks.
pub fn messages_are_few()
    ensures { MessagesAreFew }
{}

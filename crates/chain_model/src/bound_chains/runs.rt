// Runs by chains.
ghost use Rattle.chain_model.specs.Laws.{ChainStoresHold, ChainsKeepNeeds, ChainsPrintTheProgram, ChainsRunAsSequential};

use crate::bound_chains::given::{chains_agree, plans_are_there};

/// A law: the machine of chains prints what the sequential run of the program prints, and stops exactly where that has
/// its first fault; where it has none, the owners' pairs and the variables end with the sequential values. Before each
/// loop to which that run comes, each rank holds what it needs, with its values. Which pairs it holds goes by needs
/// alone.
pub fn chains_run_as_sequential()
    ensures agrees { ChainsRunAsSequential }
    ensures kept { ChainsKeepNeeds }
    ensures prints { ChainsPrintTheProgram }
    ensures held { ChainStoresHold }
{
    plans_are_there();
    chains_agree();
}

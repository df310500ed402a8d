// Laws of the words, each as the contract of a function that does nothing.

ghost use Rattle.std.specs.Prelude.{◌≡◌, ℕ, List, [], ◌∷◌};
ghost use Rattle.clap.specs.Kinds.{IsAmong};
ghost use Rattle.clap.specs.Faults.{fault_of};
ghost use Rattle.clap.specs.declared.error.kind.ErrorKind.{ErrorKind as Kind};
ghost use Rattle.command_words.specs.Words.{command};
ghost use Rattle.command_words.specs.Laws.{OptionsAreWithin, OptionWordsAreWithin, HeadsAreNotDumped};

/// A law: `clap` has at most one kind of fault to answer the words with.
pub fn one_fault()
    ensures { (words : List (List ℕ)) (k : Kind) → IsAmong k (fault_of command words) → fault_of command words ≡ k ∷ [] }
{}

/// A law: the numbers of the options that words ask for are in range.
pub fn options_are_within()
    ensures { OptionsAreWithin }
{}

/// A law: the numbers of the options that their values give are in range.
pub fn option_words_are_within()
    ensures { OptionWordsAreWithin }
{}

/// A law: words that ask for the items before one ask for no dump.
pub fn heads_are_not_dumped()
    ensures { HeadsAreNotDumped }
{}

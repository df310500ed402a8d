// Laws of the definitions, each as the contract of a function that does nothing.

ghost use Rattle.bound_program.specs.Refusals.{AnswersFirst, OneFirst};

/// A law: something is wrong with a statement exactly where a refusal is answered. That one is the first: it counts
/// before all else that is wrong with the statement, and no other does.
pub fn first_is_answered()
    ensures answered { AnswersFirst }
    ensures one { OneFirst }
{}

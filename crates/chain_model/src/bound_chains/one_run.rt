// That a run by chains is one.
ghost use Rattle.chain_model.specs.OneRun.{ChainsAreOne};

/// A law: runs by chains have one text of their counts and one dump, where their kernels have the same trees and their
/// owners are the same, wherever these lie in memory.
pub fn chains_are_one()
    ensures { ChainsAreOne }
{
    bound_plan::one_program();
}

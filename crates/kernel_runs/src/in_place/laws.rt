// The laws of runs in place, each as the contract of a function that does nothing.

ghost use Rattle.kernel_runs.specs.Here.{FinishesHere};
ghost use Rattle.kernel_runs.specs.InPlace.{RunsInPlace};
ghost use Rattle.kernel_runs.specs.Leaving.{ObeyingLeave, UnstoringLeave};

/// A law: on the cells of a memory that spans name, any kernel ends as on the windows that the spans gather. Where it
/// finishes, the memory has the written spans' cells of the windows after that run, and its own cells elsewhere. After
/// a fault it has its own cells but for those that arguments in written spans reach.
pub fn runs_in_place()
    ensures { RunsInPlace }
{
    kernel_model::transport();
    kernel_model::others_stay();
    kernel_model::shape_stays();
}

/// A law: a kernel leaves the cells of spans that aren't written, where it obeys its modes and the arguments in such
/// spans are OP_READ; and where its text stores nothing through the arguments in such spans.
pub fn unwritten_stay()
    ensures obeying { ObeyingLeave }
    ensures unstoring { UnstoringLeave }
{
    kernel_model::reads_stay();
    kernel_model::unstored_stay();
}

/// A law: where a kernel finishes on a memory's own cells, however it was run, that is its run on the windows that
/// spans gather, and the memory has what that leaves of the written spans. So a machine that runs several elements at
/// once may say what `run_here` says.
pub fn finishes_here()
    ensures { FinishesHere }
{
    runs_in_place();
}

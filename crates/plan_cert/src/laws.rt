// Laws of plan texts whose colours were chosen elsewhere, each as the contract of a function that does nothing. The
// first three are also of two lists of local meshes that are the same as lists, as those of two distributions are.
ghost use Rattle.plan_cert.specs.Laws.{RefusalsAreOne, NoneIsRefused, PlansAreAlike, SomeOutcome, LeastAreShort, WrittenAreCertified};
ghost use Rattle.plan_cert.specs.Laws.{CertifiedHaveSteps, ProperHaveSteps, NoKernelIsRead};

/// A law: one line of a text is the first that is refused, and by one number.
pub fn one_refusal()
    ensures { RefusalsAreOne }
{}

/// A law: a text that gives a plan has no line that is refused.
pub fn none_is_refused()
    ensures { NoneIsRefused }
{}

/// A law: two plans that a text gives are alike.
pub fn plans_are_alike()
    ensures { PlansAreAlike }
{}

/// A law: a plan that a text gives has as many steps as the program, where that fits.
pub fn certified_plans_have_steps()
    ensures { CertifiedHaveSteps }
{
    loop_plan::bound_is_in_range();
}

/// A law: a plan that is proper has as many steps as the program, where that fits.
pub fn proper_plans_have_steps()
    ensures { ProperHaveSteps }
{
    loop_plan::bound_is_in_range();
}

/// A law: a text gives a plan, or a line of it is refused, whatever its bytes.
pub fn some_outcome()
    ensures { SomeOutcome }
{
    loop_plan::bound_is_in_range();
    loop_plan::plan_exists::some_plan();
}

/// A law: least colours are below 2 ^ 32, on the local meshes of a program that fits.
pub fn least_colours_are_short()
    ensures { LeastAreShort }
{}

/// A law: the text of a plan in blocks of 1 to 65536 with colours below 2 ^ 32 gives that plan.
pub fn written_plans_are_certified()
    ensures { WrittenAreCertified }
{
    op_num::number_is_read();
}

/// A law: what a text gives, and why it gives none, rests on the mesh, the loops and the items of a program alone.
pub fn no_kernel_is_read()
    ensures { NoKernelIsRead }
{}

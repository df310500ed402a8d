// The laws of the lower crates on which the laws here rest.
ghost use Rattle.chain_model.specs.Given.{ChainLaws, PlanLaws};

use kernel_model::types::KernelFault;

// That there is a plan, whose setup is lawful.
pub(crate) fn plans_are_there()
    ensures { PlanLaws }
{
    loop_plan::plan_exists::some_numbers();
    loop_plan::plan_exists::outcomes_fit();
    loop_plan::plan_exists::some_distribution();
    loop_plan::plan_exists::some_plan();
    bound_plan::setups_are_lawful();
}

// Of chains.
pub(crate) fn chains_agree()
    ensures { ChainLaws }
{
    crate::chains_run_as_sequential::<KernelFault>();
    crate::stores_hold::<KernelFault>();
}

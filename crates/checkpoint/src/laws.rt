// Laws of runs that stop at an item and go on from there, each as the contract of a function that does nothing.

ghost use Rattle.checkpoint.specs.Laws.{RunsGoOn, HeadsPrintStates, HeadsStop, HeadsFit, HeadsObey, RunsKeepConstants, TailsFit, TailsGoOn};
ghost use Rattle.checkpoint.specs.Laws.{TailsObey};

/// A law: a run that came to an item goes on as the items from there, begun with its values.
pub fn runs_go_on()
    ensures { RunsGoOn }
{}

/// A law: the run of a head stops where the program's does.
pub fn heads_stop()
    ensures { HeadsStop }
{}

/// A law: it prints the state, where the program's doesn't stop before the cut.
pub fn heads_print_states()
    ensures { HeadsPrintStates }
{}

/// A law: a run that comes to a cut goes on as that of the tail, begun with the state there.
pub fn tails_go_on()
    ensures { TailsGoOn }
{
    mesh_decl::declarations_hold();
    run_model::items_are_there();
    run_model::constants_are_read();
    runs_keep_constants();
}

/// A law: a head fits where the program does, and 32 bits count its items.
pub fn heads_fit()
    ensures { HeadsFit }
{}

/// A law: a tail fits where the program does and the state has its shape.
pub fn tails_fit()
    ensures { TailsFit }
{}

/// A law: the variables that are `const` keep their values through a run, where nothing sets them.
pub fn runs_keep_constants()
    ensures { RunsKeepConstants }
{
    run_model::items_are_there();
    run_model::loops_keep();
}

/// A law: the kernels of a head obey the accesses of their arguments where those of the program do.
pub fn heads_obey()
    ensures { HeadsObey }
{}

/// A law: the kernels of a tail obey them too, where the state has the program's shape.
pub fn tails_obey()
    ensures { TailsObey }
{}

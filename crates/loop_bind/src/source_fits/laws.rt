// Laws of the definitions, each as the contract of a function that does nothing.

ghost use Rattle.loop_bind.specs.ResolvedSources.{ResolvedSourcesAre, ResolvedNamesHold, SpelledEntriesFit, NamedNamesAreAll};

use name_resolution::kernels_are_resolved;

/// A law: a source that was read and resolves has the kernels of a resolved program, which name cells of single
/// constants, constants that are its variables that kernels read, numbers of 32 bits and arrays with cells, and assigns
/// variables alone.
pub fn resolved_sources_are()
    ensures { ResolvedSourcesAre }
{
    kernels_are_resolved();
}

/// A law: where names and types of a source refuse nothing, its `main` assigns variables alone, and no two variables of
/// its file have one name.
pub fn resolved_names_hold()
    ensures { ResolvedNamesHold }
{}

/// A law: the values of the entries of a mesh text are of 32 bits.
pub fn spelled_entries_fit()
    ensures { SpelledEntriesFit }
{}

/// A law: where no `op_decl_const` names a variable of `main`, each name that one names counts.
pub fn named_names_are_all()
    ensures { NamedNamesAreAll }
{}

// Laws of the definitions, each as the contract of a function that does nothing.

ghost use Rattle.std.specs.Prelude.{◌≢◌, List, Err};
ghost use Rattle.bound_program.specs.declared.refusals.refusals.BindRefusal.TheVariants.{OutOfMemory};
ghost use Rattle.c_tree.specs.Tree.{ProgramTree};
ghost use Rattle.kernel_model.specs.declared.types.kernels.Resolved.{Resolved as Kernels};
ghost use Rattle.mesh_decl.specs.Spelling.{Named};
ghost use Rattle.loop_bind.specs.Bound.{bound};
ghost use Rattle.loop_bind.specs.Names.{BoundNamesAreNames};
ghost use Rattle.loop_bind.specs.Resolvable.{BoundProgramsFit, BoundMapsAreNarrow, BoundProgramsLeaveConstants};

use crate::source_fits::named_names_are_all;

/// A law: a program that is bound fits, where its source is a resolved one and the values of its mesh text are of 32
/// bits.
pub fn bound_programs_fit()
    ensures { BoundProgramsFit }
{
    named_names_are_all();
}

/// A law: each map of such a program has a dim of at most 64.
pub fn bound_maps_are_narrow()
    ensures { BoundMapsAreNarrow }
{
    named_names_are_all();
}

/// A law: nothing in such a program sets a variable that is `const`, whatever the values of its mesh text.
pub fn bound_programs_leave_constants()
    ensures { BoundProgramsLeaveConstants }
{}

/// A law: the sets, maps and dats of a bound program have C names, where its source was read.
pub fn bound_names_are_names()
    ensures { BoundNamesAreNames }
{}

/// A law: no program is refused for want of memory by definition, so where binding answers it, memory ran out.
pub fn refusals_have_causes()
    ensures { (p : ProgramTree) (kernels : Kernels) (es : List Named) → bound p kernels es ≢ Err OutOfMemory }
{}

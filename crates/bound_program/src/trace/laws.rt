// Laws of the definitions, each as the contract of a function that does nothing.

ghost use Rattle.std.specs.Prelude.{◌≡◌, ℤ, List, []};
ghost use Rattle.kernel_model.specs.View.{RExprTree};
ghost use Rattle.bound_program.specs.HostExpr.{MeansAsInKernels, value, closed};

/// A law: an expression of `main` has the value, or the fault, that it has in a kernel whose local cells are those of
/// all variables, one after another.
pub fn host_values_are_kernel_values()
    ensures { MeansAsInKernels }
{}

/// A law: with values in place of the names that are told an expression has the value that it has where these values
/// are told.
pub fn told_values_are_closed()
    ensures { (told cells : List ℤ) (e : RExprTree) → value [] cells (closed told e) ≡ value told cells e }
{}

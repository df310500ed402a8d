// The loops of a program.

ghost use Rattle.std.specs.Prelude.{◌≡◌, ◌<◌, length};
ghost use Rattle.bound_program.specs.Values.{bound_of};
ghost use Rattle.bound_program.specs.Fits.{site_at};

use bound_program::{Arg, Bound};

/// A loop's arguments.
pub fn args_of(bound: &Bound, site: usize) -> &[Arg]
    requires { site < length (bound_of bound.now).sites }
    ensures { result.now ≡ (site_at (bound_of bound.now) site).args }
{
    &bound.sites[site].args
}

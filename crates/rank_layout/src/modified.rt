// Which dats a loop modifies.

ghost use Rattle.std.specs.Prelude.{◌≡◌};
ghost use Rattle.bound_program.specs.Classes.{is_read, passes, all_on, modifies};

use bound_program::{Access, Arg, is_access};

// Whether the argument is on another dat, or only reads.
fn reads(dat: u32, arg: Arg) -> bool
    ensures { result ≡ passes dat (λ v a. is_read a) arg }
{
    match arg {
        Arg::Dat {
            dat: other,
            access,
            ..
        } => !(other == dat) || is_access(Access::Read, access),
        Arg::Global { .. } => true,
    }
}

// Whether all arguments on the dat only read.
fn all_read(dat: u32, args: &[Arg]) -> bool
    ensures { result ≡ all_on dat (λ v a. is_read a) args.now }
{
    for arg in args {
        if !reads(dat, *arg) {
            return false;
        }
    }
    true
}

/// Whether a loop with these arguments modifies the dat: an argument on it is not OP_READ.
pub fn is_modified(dat: u32, args: &[Arg]) -> bool
    ensures { result ≡ modifies args.now dat }
{
    !all_read(dat, args)
}

// The class of a loop.

ghost use Rattle.std.specs.Prelude.{◌≡◌, is_none};
ghost use Rattle.bound_program.specs.Classes.{is_access, passes, all_on, is_orderly, is_orderly_arg, class_of};

use crate::sites::{Arg, Class};
use mesh_decl::Access;

/// Whether an access is this one, which is OP_READ or merges amounts.
pub fn is_access(wanted: Access, access: Access) -> bool
    ensures { result ≡ is_access wanted access }
{
    match (wanted, access) {
        (Access::Read, Access::Read) => true,
        (Access::Inc, Access::Inc) => true,
        (Access::Min, Access::Min) => true,
        (Access::Max, Access::Max) => true,
        _ => false,
    }
}

// Whether the argument is on another dat, or has this access.
fn has_access(dat: u32, wanted: Access, arg: Arg) -> bool
    ensures { result ≡ passes dat (λ v a. is_access wanted a) arg }
{
    match arg {
        Arg::Dat {
            dat: other,
            access,
            ..
        } => !(other == dat) || is_access(wanted, access),
        Arg::Global { .. } => true,
    }
}

// Whether all arguments on the dat have this access.
fn all_have(dat: u32, wanted: Access, args: &[Arg]) -> bool
    ensures { result ≡ all_on dat (λ v a. is_access wanted a) args.now }
{
    for arg in args {
        if !has_access(dat, wanted, *arg) {
            return false;
        }
    }
    true
}

// Whether the argument is on another dat, or direct.
fn is_direct(dat: u32, arg: Arg) -> bool
    ensures { result ≡ passes dat (λ v a. is_none v) arg }
{
    match arg {
        Arg::Dat {
            dat: other,
            via,
            ..
        } => !(other == dat) || via.is_none(),
        Arg::Global { .. } => true,
    }
}

// Whether all arguments on the dat are direct.
fn all_direct(dat: u32, args: &[Arg]) -> bool
    ensures { result ≡ all_on dat (λ v a. is_none v) args.now }
{
    for arg in args {
        if !is_direct(dat, *arg) {
            return false;
        }
    }
    true
}

// Whether the dat has direct arguments alone, or arguments of one reducing access alone.
fn is_orderly(args: &[Arg], dat: u32) -> bool
    ensures { result ≡ is_orderly args.now dat }
{
    all_direct(dat, args)
        || all_have(dat, Access::Inc, args)
        || all_have(dat, Access::Min, args)
        || all_have(dat, Access::Max, args)
}

// Whether the argument's dat is only read or orderly.
fn is_orderly_arg(args: &[Arg], arg: Arg) -> bool
    ensures { result ≡ is_orderly_arg args.now arg }
{
    match arg {
        Arg::Dat { dat, .. } => all_have(dat, Access::Read, args) || is_orderly(args, dat),
        Arg::Global { .. } => true,
    }
}

/// The class of a loop with these arguments.
pub fn class_of(args: &[Arg]) -> Class
    ensures { result ≡ class_of args.now }
{
    for arg in args {
        if !is_orderly_arg(args, *arg) {
            return Class::Ordered;
        }
    }
    Class::Free
}

// What the arguments that share a column may do together.

ghost use Rattle.std.specs.Prelude.{◌≡◌, ◌<◌, IfSome, true, length};
ghost use Rattle.op_num.specs.Access.{access_of};
ghost use Rattle.bound_program.specs.Classes.{is_reducing};
ghost use Rattle.run_model.specs.Arguments.{access_by};
ghost use Rattle.kernel_runs.specs.Alike.{arg_in, same_column};
ghost use Rattle.kernel_runs.specs.Tables.{Joins, IsShared};

use crate::row_batches::batch_tables::alike::is_same_column;
use bound_program::{Access, Arg};

// The access of an argument.
fn access_of(arg: Arg) -> Access
    ensures { access_of result ≡ access_by arg }
{
    match arg {
        Arg::Dat { access, .. } => access,
        Arg::Global { access, .. } => access,
    }
}

// Whether it merges amounts into what it reaches.
fn reduces(access: Access) -> bool
    ensures { result ≡ is_reducing access }
{
    match access {
        Access::Inc => true,
        Access::Min => true,
        Access::Max => true,
        _ => false,
    }
}

// What lets both do what they may: OP_RW where they differ. None where one of two different ones is a reduction.
fn joined(some: Access, other: Access) -> Option<Access>
    ensures { IfSome result (Joins some other) }
{
    if some == other {
        return Some(some);
    }
    if reduces(some) || reduces(other) {
        return None;
    }
    Some(Access::Rw)
}

/// What lets each argument that shares the column of argument `a`, which is on a dat, do what it may. None where one of
/// them is a reduction and another one is not the same.
pub fn shared_access(args: &[Arg], a: usize) -> Option<Access>
    requires there { a < length args.now }
    requires dat { same_column (arg_in args.now a) (arg_in args.now a) ≡ true }
    ensures { IfSome result (IsShared args.now a) }
{
    let mut shared = access_of(args[a]);
    for b in 0..args.len() {
        if is_same_column(args[b], args[a]) {
            shared = joined(shared, access_of(args[b]))?;
        }
    }
    Some(shared)
}

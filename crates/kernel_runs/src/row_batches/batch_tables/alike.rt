// Which arguments of a loop reach elements alike.

ghost use Rattle.std.specs.Prelude.{◌≡◌, ◌<◌, length};
ghost use Rattle.bound_program.specs.Classes.{is_read};
ghost use Rattle.kernel_runs.specs.Alike.{same_via, same_way, same_column, may_meet, IsFirst};

use bound_program::{Access, Arg, Via, is_access};

// Whether both lead by no map, or by one map and one index.
fn is_same_via(some: Option<Via>, other: Option<Via>) -> bool
    ensures { result ≡ same_via some other }
{
    match (some, other) {
        (None, None) => true,
        (Some(some), Some(other)) => some.map == other.map && some.index == other.index,
        _ => false,
    }
}

// Whether both are on dats, which they reach in one way.
fn is_same_way(some: Arg, other: Arg) -> bool
    ensures { result ≡ same_way some other }
{
    match (some, other) {
        (Arg::Dat { via, .. }, Arg::Dat { via: other, .. }) => is_same_via(via, other),
        _ => false,
    }
}

/// Whether both are on one dat, which they reach in one way.
pub fn is_same_column(some: Arg, other: Arg) -> bool
    ensures { result ≡ same_column some other }
{
    match (some, other) {
        (
            Arg::Dat { dat, via, .. },
            Arg::Dat {
                dat: other,
                via: way,
                ..
            },
        ) => dat == other && is_same_via(via, way),
        _ => false,
    }
}

/// Whether both are on one dat, which one of them may modify, and reach it in different ways.
pub fn can_meet(some: Arg, other: Arg) -> bool
    ensures { result ≡ may_meet some other }
{
    match (some, other) {
        (
            Arg::Dat { dat, via, access },
            Arg::Dat {
                dat: other,
                via: way,
                access: own,
            },
        ) => dat == other && !is_same_via(via, way) && !(only_reads(access) && only_reads(own)),
        _ => false,
    }
}

// Whether the access is OP_READ.
fn only_reads(access: Access) -> bool
    ensures { result ≡ is_read access }
{
    is_access(Access::Read, access)
}

/// The first argument on a dat that reaches elements in the way of argument `a`, or `a` where none does before it.
pub fn first_way(args: &[Arg], a: usize) -> usize
    requires { a < length args.now }
    ensures { IsFirst same_way args.now a result }
{
    for b in 0..a {
        if is_same_way(args[b], args[a]) {
            return b;
        }
    }
    a
}

/// The first argument that reaches the dat of argument `a` in one way with it, or `a` where none does before it.
pub fn first_column(args: &[Arg], a: usize) -> usize
    requires { a < length args.now }
    ensures { IsFirst same_column args.now a result }
{
    for b in 0..a {
        if is_same_column(args[b], args[a]) {
            return b;
        }
    }
    a
}

// Which dats loops modify, by argument.

ghost use Rattle.std.specs.Prelude.{◌≡◌, ℕ, ◌<◌, IfOk, length, map};
ghost use Rattle.bound_program.specs.Values.{bound_of};
ghost use Rattle.bound_program.specs.Fits.{site_at};
ghost use Rattle.rank_layout.specs.Made.{row_of, writes_by};

use crate::modified::is_modified;
use bound_program::{Arg, Bound};
use op_num::OutOfMemory;
use std::alloc::Global;

// Whether a loop with these arguments modifies the argument's dat; each variable's window counts.
fn is_written(args: &[Arg], arg: Arg) -> bool
    ensures { result ≡ writes_by args.now arg }
{
    match arg {
        Arg::Dat { dat, .. } => is_modified(dat, args),
        Arg::Global { .. } => true,
    }
}

// By argument, whether a loop with these modifies its dat.
fn writes_of(alloc: Global, args: &[Arg]) -> Result<Vec<bool>, OutOfMemory>
    ensures { IfOk result (λ v. v.items ≡ map (writes_by args.now) args.now) }
{
    let mut writes = Vec::with_capacity(alloc, args.len())?;
    for arg in args {
        writes.push(is_written(args, *arg))?;
    }
    Ok(writes)
}

/// By loop and argument, whether the loop modifies the argument's dat; `true` for one on a variable, whose
/// window is an element's own.
///
/// # Errors
/// Want of memory alone.
pub fn loop_writes(alloc: Global, bound: &Bound) -> Result<Vec<Vec<bool>>, OutOfMemory>
    ensures count { IfOk result (λ v. length v.items ≡ length (bound_of bound.now).sites) }
    ensures writes { IfOk result (λ v. (s : ℕ) → s < length (bound_of bound.now).sites
        → row_of v.items s ≡ map (writes_by (site_at (bound_of bound.now) s).args) (site_at (bound_of bound.now) s).args) }
{
    let mut writes = Vec::with_capacity(alloc, bound.sites.len())?;
    for site in &bound.sites {
        writes.push(writes_of(alloc, &site.args)?)?;
    }
    Ok(writes)
}

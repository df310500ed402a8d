// The loops of a program: their kernels, sets and arguments.

ghost use Rattle.std.specs.Prelude.{◌≡◌, ◌++◌, ◌∷◌, [], length, map, IfOk, OnOk};
ghost use Rattle.bound_program.specs.Values.{site_of};
ghost use Rattle.bound_program.specs.Refusals.{least_from, first_of, Judges};
ghost use Rattle.loop_bind.specs.Arguments.{kernel_found, kernel_number, loop_found, arg_of, site, judged_args, judged_loop};
ghost use Rattle.main_declarations.specs.Walks.{declared_of};

use crate::main_text::arguments::{arg_of, note_args};
use crate::main_text::globals::after_globals;
use bound_program::refusals::{BindRefusal, Counted, Found, Turn, note_if, note_over, place};
use bound_program::{Arg, MAX_ARGUMENTS, Site, class_of};
use c_tree::{Ident, LoopArg};
use main_declarations::names::{Declared, Meaning, Source, or_zero, set_of};
use main_declarations::note_set;
use op_num::OutOfMemory;
use std::alloc::AllocError;

// Notes where no kernel is meant, or one that doesn't take so many arguments.
fn note_kernel(
    source: &Source<'_>,
    first: &mut Option<Found>,
    t: usize,
    x: &Ident,
    count: usize,
    meaning: Option<Meaning>,
)
    ensures { first.new ≡ least_from first.old (kernel_found source.now.places.now source.now.entries.now.entries t x.now count meaning) }
{
    match meaning {
        Some(Meaning::Kernel { params, .. }) => {
            let at = place(source.places, t);
            note_if(first, !(params == count), t, BindRefusal::ArgCount { at });
        }
        _ => {
            let at = place(source.places, x.at);
            note_if(first, true, x.at, BindRefusal::UnknownKernel { at });
        }
    }
}

// The number of a kernel.
fn kernel_number(source: &Source<'_>, meaning: Option<Meaning>) -> u32
    ensures { result ≡ kernel_number source.now.places.now source.now.entries.now.entries meaning }
{
    let _source = source;
    match meaning {
        Some(Meaning::Kernel { number, .. }) => number,
        _ => 0,
    }
}

// The first of what is wrong with a loop.
#[tactic(auto, using(bound_program::proofs::Public::first_of_four))]
fn first_in_loop(
    source: &Source<'_>,
    k: &Declared,
    t: usize,
    f: &Ident,
    on: &Ident,
    args: &[LoopArg],
) -> Result<Option<Found>, OutOfMemory>
    ensures { IfOk result (λ r. r ≡ first_of
        (loop_found source.now.places.now source.now.entries.now.entries (declared_of k.now) t f.now on.now args.now)) }
{
    let mut first = None;
    let count = args.len();
    let meaning = k.names.means(&f.name);
    note_kernel(source, &mut first, t, f, count, meaning);
    note_over(
        &mut first,
        Turn::InOrder,
        MAX_ARGUMENTS,
        count as u64,
        t,
        Counted::Arguments,
    );
    note_set(source, &mut first, k, on);
    let set = set_of(k.names.means(&on.name));
    note_args(source, &mut first, k, set, args)?;
    Ok(first)
}

// The arguments of a loop.
fn args_of(source: &Source<'_>, k: &Declared, args: &[LoopArg]) -> Result<Vec<Arg>, OutOfMemory>
    ensures { IfOk result (λ r. r.items ≡
        map (arg_of source.now.places.now source.now.entries.now.entries (declared_of k.now)) args.now) }
{
    let mut all = Vec::new(source.alloc);
    for arg in args {
        all.push(arg_of(source, k, arg))?;
    }
    Ok(all)
}

// The loop, where nothing is wrong with it.
fn site_at(
    source: &Source<'_>,
    k: &Declared,
    t: usize,
    f: &Ident,
    on: &Ident,
    args: &[LoopArg],
) -> Result<Site, OutOfMemory>
    ensures { IfOk result (λ r. site_of r ≡
        site source.now.places.now source.now.entries.now.entries (declared_of k.now) t f.now on.now args.now) }
{
    let args = args_of(source, k, args)?;
    let class = class_of(&args);
    Ok(Site {
        kernel: kernel_number(source, k.names.means(&f.name)),
        set: or_zero(set_of(k.names.means(&on.name))),
        args,
        class,
        at: place(source.places, t),
    })
}

// One loop more.
fn add_site(k: &mut Declared, site: Site) -> Result<(), OutOfMemory>
    ensures { OnOk result (declared_of k.new ≡ record (declared_of k.old) { sites = (declared_of k.old).sites ++ site_of site ∷ [] }) }
{
    k.sites.push(site)?;
    Ok(())
}

// The loop, where its externs are variables already.
fn judged_args(
    source: &Source<'_>,
    k: &mut Declared,
    t: usize,
    f: &Ident,
    on: &Ident,
    args: &[LoopArg],
) -> Result<(), BindRefusal>
    ensures { Judges result (declared_of k.new)
        (judged_args source.now.places.now source.now.entries.now.entries (declared_of k.old) t f.now on.now args.now) }
{
    let first = first_in_loop(source, k, t, f, on, args)?;
    if let Some(found) = first {
        return Err(found.refusal);
    }
    let site = site_at(source, k, t, f, on, args)?;
    add_site(k, site)?;
    Ok(())
}

/// The number of the next loop.
pub fn next_site(k: &Declared) -> Result<u32, OutOfMemory>
    ensures { IfOk result (λ n. n ≡ length (declared_of k.now).sites) }
{
    let number = k.sites.len();
    if number >= 4294967295 {
        return Err(AllocError);
    }
    Ok(number as u32)
}

/// `op_par_loop(f, "..", on, args ..);`, its word at the token t.
pub fn judged_loop(
    source: &Source<'_>,
    k: &mut Declared,
    t: usize,
    f: &Ident,
    on: &Ident,
    args: &[LoopArg],
) -> Result<(), BindRefusal>
    ensures { Judges result (declared_of k.new)
        (judged_loop source.now.places.now source.now.entries.now.entries (declared_of k.old) t f.now on.now args.now) }
{
    after_globals(source, k, args)?;
    judged_args(source, k, t, f, on, args)
}

// What is wrong with the arguments of loops.

ghost use Rattle.std.specs.Prelude.{◌≡◌, [], OnOk};
ghost use Rattle.mesh_decl.specs.Mesh.{dat_dim, map_dim};
ghost use Rattle.bound_program.specs.Refusals.{least_from};
ghost use Rattle.loop_bind.specs.Arguments.{is_same, is_twice, via_map, is_wrong_set, is_minus_one, is_wrong_index, is_wrong_dim, dim_of};
ghost use Rattle.loop_bind.specs.Arguments.{map_found, global_found, reach_found, dat_arg_found, arg_found, with_earlier, args_found};
ghost use Rattle.loop_bind.specs.Arguments.{via_of, arg_of};
ghost use Rattle.main_declarations.specs.Walks.{declared_of};

use crate::main_text::accesses::{access_of, is_reserved};
use crate::main_text::globals::{GlobalVar, global_of};
use bound_program::refusals::{BindRefusal, Counted, Found, Turn, note_if, note_over, place};
use bound_program::{Arg, MAX_DIM, is_access};
use c_tree::{ArgIndex, ArgVia, GlobalName, Ident, LoopArg, NumberLiteral, TextLiteral};
use main_declarations::names::{Declared, Source, dat_of, dat_shape, map_ends, map_of, or_zero};
use main_declarations::{glob_token, note_ampersand, note_type};
use mesh_decl::{Access, Mesh, Via};
use op_num::OutOfMemory;

/// A global of the loop so far.
#[derive(Clone, Copy, PartialEq, Eq, Debug)]
pub struct Earlier {
    pub var: u32,
    pub access: Access,
}

// The number of the map; none for OP_ID.
fn via_map(k: &Declared, via: &ArgVia) -> Option<u32>
    ensures { result ≡ via_map (declared_of k.now).names via.now }
{
    match via {
        ArgVia::Map(x) => map_of(k.names.means(&x.name)),
        ArgVia::Identity(_) => None,
    }
}

// A direct dat isn't on the loop's set; or the map doesn't lead from there to the dat's set.
fn is_wrong_set(
    mesh: &Mesh,
    set: Option<u32>,
    dat: Option<u32>,
    via: &ArgVia,
    map: Option<u32>,
) -> bool
    ensures { result ≡ is_wrong_set mesh.now set dat via.now map }
{
    let Some(set) = set else {
        return false;
    };
    let Some(dat) = dat else {
        return false;
    };
    let on = dat_shape(mesh, dat).0;
    match via {
        ArgVia::Identity(_) => !(on == set),
        ArgVia::Map(_) => match map {
            None => false,
            Some(map) => {
                let ends = map_ends(mesh, map);
                !(ends.0 == set) || !(ends.1 == on)
            }
        },
    }
}

fn is_minus_one(i: ArgIndex) -> bool
    ensures { result ≡ is_minus_one i }
{
    i.is_negative && i.value.unsigned_abs() == 1
}

// OP_ID has the index -1; a map has no index behind `-`, and one below its dim.
fn is_wrong_index(mesh: &Mesh, i: ArgIndex, via: &ArgVia, map: Option<u32>) -> bool
    ensures { result ≡ is_wrong_index mesh.now i via.now map }
{
    match via {
        ArgVia::Identity(_) => !is_minus_one(i),
        ArgVia::Map(_) => match map {
            None => i.is_negative && !is_minus_one(i),
            Some(map) => i.is_negative || !(i.value.unsigned_abs() < map_ends(mesh, map).2),
        },
    }
}

// The dim is 0 or not that of the dat or variable.
fn is_wrong_dim(dim: Option<u64>, n: u32) -> bool
    ensures { result ≡ is_wrong_dim dim n }
{
    match dim {
        None => n == 0,
        Some(dim) => n == 0 || !(n as u64 == dim),
    }
}

fn dim_of(mesh: &Mesh, dat: Option<u32>) -> Option<u64>
    ensures { result ≡ dim_of mesh.now dat }
{
    match dat {
        None => None,
        Some(dat) => Some(dat_shape(mesh, dat).1 as u64),
    }
}

// A global that stands for the same variable, not both times as OP_READ.
fn is_same(e: Earlier, var: u32, access: Access) -> bool
    ensures { result ≡ is_same var access e }
{
    e.var == var && !(is_access(Access::Read, e.access) && is_access(Access::Read, access))
}

// The variable stands among those, and not both times as OP_READ.
fn is_twice(before: &[Earlier], var: u32, access: Access) -> bool
    ensures { result ≡ is_twice before.now var access }
{
    for e in before {
        if is_same(*e, var, access) {
            return true;
        }
    }
    false
}

// Notes where no map is meant.
fn note_map(source: &Source<'_>, first: &mut Option<Found>, k: &Declared, via: &ArgVia)
    ensures { first.new ≡ least_from first.old
        (map_found source.now.places.now source.now.entries.now.entries (declared_of k.now).names via.now) }
{
    match via {
        ArgVia::Map(x) => {
            let at = place(source.places, x.at);
            let is_wrong = map_of(k.names.means(&x.name)).is_none();
            note_if(first, is_wrong, x.at, BindRefusal::UnknownMap { at });
        }
        ArgVia::Identity(_) => {}
    }
}

// Notes what is wrong with a global.
#[tactic(auto, using(bound_program::proofs::Public::least_append))]
fn note_global(
    source: &Source<'_>,
    first: &mut Option<Found>,
    before: &[Earlier],
    g: &GlobalName,
    n: NumberLiteral,
    access: Access,
    access_at: usize,
    var: Option<GlobalVar>,
)
    ensures { first.new ≡ least_from first.old
        (global_found source.now.places.now source.now.entries.now.entries before.now g.now n access access_at var) }
{
    let dim = n.value.unsigned_abs();
    let at = place(source.places, n.at);
    let dim_refusal = BindRefusal::DimMismatch { at };
    let at = place(source.places, access_at);
    let access_refusal = BindRefusal::ReservedAccess { at };
    match var {
        None => {
            let at = place(source.places, g.name.at);
            note_if(first, true, g.name.at, BindRefusal::UnknownEntry { at });
            note_if(first, dim == 0, n.at, dim_refusal);
            note_if(first, is_reserved(false, access), access_at, access_refusal);
        }
        Some(v) => {
            let token = glob_token(source, g);
            let at = place(source.places, token);
            let is_twice = is_twice(before, v.var, access);
            let is_wrong = is_wrong_dim(Some(v.count as u64), dim);
            note_ampersand(source, first, v.is_array, g);
            note_if(first, is_twice, token, BindRefusal::GlobalTwice { at });
            note_if(first, is_wrong, n.at, dim_refusal);
            note_if(
                first,
                is_reserved(v.is_kept, access),
                access_at,
                access_refusal,
            );
        }
    }
}

// Notes what is wrong with how an argument leads to a dat.
#[tactic(auto, using(bound_program::proofs::Public::least_three))]
fn note_reach(
    source: &Source<'_>,
    first: &mut Option<Found>,
    k: &Declared,
    set: Option<u32>,
    x: &Ident,
    i: ArgIndex,
    via: &ArgVia,
)
    ensures { first.new ≡ least_from first.old
        (reach_found source.now.places.now source.now.entries.now.entries (declared_of k.now) set x.now i via.now) }
{
    let dat = dat_of(k.names.means(&x.name));
    let map = via_map(k, via);
    let at = place(source.places, x.at);
    note_if(first, dat.is_none(), x.at, BindRefusal::UnknownDat { at });
    let is_wrong = is_wrong_set(&k.mesh, set, dat, via, map);
    note_if(first, is_wrong, x.at, BindRefusal::SetMismatch { at });
    let is_wrong = is_wrong_index(&k.mesh, i, via, map);
    let at = place(source.places, i.at);
    note_if(first, is_wrong, i.at, BindRefusal::IndexRange { at });
}

// Notes what is wrong with an argument on a dat.
#[tactic(auto, using(bound_program::proofs::Public::least_four))]
fn note_dat(
    source: &Source<'_>,
    first: &mut Option<Found>,
    k: &Declared,
    set: Option<u32>,
    x: &Ident,
    i: ArgIndex,
    via: &ArgVia,
    n: NumberLiteral,
    l: &TextLiteral,
)
    ensures { first.new ≡ least_from first.old
        (dat_arg_found source.now.places.now source.now.entries.now.entries (declared_of k.now) set x.now i via.now n l.now) }
{
    note_reach(source, first, k, set, x, i, via);
    note_map(source, first, k, via);
    let dim = dim_of(&k.mesh, dat_of(k.names.means(&x.name)));
    let is_wrong = is_wrong_dim(dim, n.value.unsigned_abs());
    let at = place(source.places, n.at);
    note_if(first, is_wrong, n.at, BindRefusal::DimMismatch { at });
    note_type(source, first, l);
}

// Notes what is wrong with an argument of a loop over that set, behind those globals.
#[tactic(auto, using(bound_program::proofs::Public::least_append))]
fn note_arg(
    source: &Source<'_>,
    first: &mut Option<Found>,
    k: &Declared,
    set: Option<u32>,
    before: &[Earlier],
    arg: &LoopArg,
)
    ensures { first.new ≡ least_from first.old
        (arg_found source.now.places.now source.now.entries.now.entries (declared_of k.now) set before.now arg.now) }
{
    match arg {
        LoopArg::Dat {
            dat,
            index,
            via,
            dim,
            type_text,
            ..
        } => note_dat(source, first, k, set, dat, *index, via, *dim, type_text),
        LoopArg::Global {
            global,
            dim,
            type_text,
            access,
            access_at,
            ..
        } => {
            let var = global_of(source, k, &global.name.name);
            let access = access_of(*access);
            note_global(source, first, before, global, *dim, access, *access_at, var);
            let size = dim.value.unsigned_abs() as u64;
            note_over(first, Turn::InOrder, MAX_DIM, size, dim.at, Counted::Dim);
            note_type(source, first, type_text);
        }
    }
}

// One global more.
fn add_earlier(
    source: &Source<'_>,
    k: &Declared,
    before: &mut Vec<Earlier>,
    arg: &LoopArg,
) -> Result<(), OutOfMemory>
    ensures { OnOk result (before.new.items ≡
        with_earlier source.now.places.now source.now.entries.now.entries (declared_of k.now) arg.now before.old.items) }
{
    match arg {
        LoopArg::Dat { .. } => Ok(()),
        LoopArg::Global { global, access, .. } => {
            match global_of(source, k, &global.name.name) {
                None => Ok(()),
                Some(v) => {
                    before.push(Earlier {
                        var: v.var,
                        access: access_of(*access),
                    })?;
                    Ok(())
                }
            }
        }
    }
}

/// Notes what is wrong with the arguments of a loop over that set.
pub fn note_args(
    source: &Source<'_>,
    first: &mut Option<Found>,
    k: &Declared,
    set: Option<u32>,
    args: &[LoopArg],
) -> Result<(), OutOfMemory>
    ensures { OnOk result (first.new ≡ least_from first.old
        (args_found source.now.places.now source.now.entries.now.entries (declared_of k.now) set [] args.now)) }
{
    let mut before = Vec::new(source.alloc);
    for arg in args {
        note_arg(source, first, k, set, &before, arg);
        add_earlier(source, k, &mut before, arg)?;
    }
    Ok(())
}

// How an argument is reached.
fn via_of(source: &Source<'_>, k: &Declared, i: ArgIndex, via: &ArgVia) -> Option<Via>
    ensures { result ≡ via_of source.now.places.now source.now.entries.now.entries (declared_of k.now).names i via.now }
{
    let _source = source;
    match via {
        ArgVia::Identity(_) => None,
        ArgVia::Map(x) => Some(Via {
            map: or_zero(map_of(k.names.means(&x.name))),
            index: i.value.unsigned_abs(),
        }),
    }
}

/// An argument.
pub fn arg_of(source: &Source<'_>, k: &Declared, arg: &LoopArg) -> Arg
    ensures { result ≡ arg_of source.now.places.now source.now.entries.now.entries (declared_of k.now) arg.now }
{
    match arg {
        LoopArg::Dat {
            dat,
            index,
            via,
            access,
            ..
        } => Arg::Dat {
            dat: or_zero(dat_of(k.names.means(&dat.name))),
            via: via_of(source, k, *index, via),
            access: access_of(*access),
        },
        LoopArg::Global { global, access, .. } => {
            let var = match global_of(source, k, &global.name.name) {
                None => 0,
                Some(v) => v.var,
            };
            Arg::Global {
                var,
                access: access_of(*access),
            }
        }
    }
}

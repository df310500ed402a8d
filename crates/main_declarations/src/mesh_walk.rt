// Declarations of sets and dats.

ghost use Rattle.std.specs.Prelude.{◌≡◌, ◌<◌, ◌+◌, ◌*◌, length, IfOk, OnOk};
ghost use Rattle.c_tree.specs.View.{expr_of};
ghost use Rattle.mesh_decl.specs.Mesh.{set_count, dat_count, set_size};
ghost use Rattle.kernel_model.specs.View.{rexpr_of};
ghost use Rattle.main_declarations.specs.Names.{declare};
ghost use Rattle.bound_program.specs.Refusals.{least_from, first_of, Judges};
ghost use Rattle.main_declarations.specs.Expressions.{resolved};
ghost use Rattle.main_declarations.specs.Declarations.{with_set, with_dat, size_found, size_of, set_decl_found};
ghost use Rattle.main_declarations.specs.Declarations.{dat_found, dat_decl_found, judged_set, judged_dat};
ghost use Rattle.main_declarations.specs.KnownSets.{SetsKnown};
ghost use Rattle.main_declarations.specs.Walks.{declared_of};

use crate::mesh_notes::{
    awaited, note_cells, note_data, note_dim, note_place, note_set, note_type, note_value,
};
use crate::names::{
    Declared, Meaning, Source, first_token, is_extern_array, is_static, known, or_zero, resolved,
    set_of, values_named,
};
use bound_program::refusals::{BindRefusal, Counted, Found, Turn, note_if, note_over, place};
use bound_program::trace::host_value;
use bound_program::{MAX_DATS, MAX_SETS};
use c_tree::{Expr, Ident, NumberLiteral, TextLiteral};
use kernel_model::types::{KernelFault, RExpr};
use op_num::OutOfMemory;
use std::alloc::AllocError;

// Notes what is wrong with the size of a set, which is this expression.
fn note_size(
    source: &Source<'_>,
    first: &mut Option<Found>,
    k: &Declared,
    t: usize,
    e: &Expr,
    size: &RExpr,
) -> Result<(), OutOfMemory>
    requires { rexpr_of size.now ≡ resolved source.now.places.now (declared_of k.now).names (expr_of e.now) }
    ensures { OnOk result (first.new ≡ least_from first.old (size_found source.now.places.now (declared_of k.now) t (expr_of e.now))) }
{
    let at = first_token(e);
    if is_static(size) {
        return note_value(source, first, k, t, at, host_value(size, &[], &[]));
    }
    let refusal = BindRefusal::ControlNotStatic {
        at: place(source.places, at),
    };
    note_if(first, true, at, refusal);
    Ok(())
}

// The size as a number; 0 where it is refused.
fn size_of(source: &Source<'_>, value: Result<i32, KernelFault>) -> u32
    ensures { result ≡ size_of source.now.places.now value }
{
    let _source = source;
    match value {
        Err(_) => 0,
        Ok(z) => z.unsigned_abs(),
    }
}

// One set more.
fn add_set(k: &mut Declared, x: &Ident, size: u32) -> Result<(), OutOfMemory>
    ensures { OnOk result (declared_of k.new ≡ record (declared_of k.old) {
      filled = k.old.filled + size;
      mesh = with_set x.now.name size k.old.mesh;
      names = declare x.now.name (Meaning.Set (set_count k.old.mesh)) (declared_of k.old).names;
    }) }
{
    let Some(filled) = k.filled.checked_add(size as u64) else {
        return Err(AllocError);
    };
    let number = k.mesh.add_set(x.name.clone()?, size)?;
    k.filled = filled;
    k.names.declare(&x.name, Meaning::Set(number))
}

// The first of what is wrong with the declaration of a set.
#[tactic(auto, using(bound_program::proofs::Public::first_of_three))]
fn first_in_set(
    source: &Source<'_>,
    k: &Declared,
    is_nested: bool,
    t: usize,
    e: &Expr,
    size: &RExpr,
) -> Result<Option<Found>, OutOfMemory>
    requires { rexpr_of size.now ≡ resolved source.now.places.now (declared_of k.now).names (expr_of e.now) }
    ensures { IfOk result (λ f. f ≡ first_of (set_decl_found source.now.places.now (declared_of k.now) is_nested t (expr_of e.now))) }
{
    let mut first = None;
    note_place(source, &mut first, k, is_nested, t);
    note_over(
        &mut first,
        Turn::InOrder,
        MAX_SETS,
        k.mesh.set_count() as u64 + 1,
        t,
        Counted::Sets,
    );
    note_size(source, &mut first, k, t, e, size)?;
    Ok(first)
}

/// `op_set x = op_decl_set(e, "..");`, its word at the token t.
pub fn judged_set(
    source: &Source<'_>,
    k: &mut Declared,
    is_nested: bool,
    t: usize,
    x: &Ident,
    e: &Expr,
) -> Result<(), BindRefusal>
    ensures { Judges result (declared_of k.new) (judged_set source.now.places.now (declared_of k.old) is_nested t x.now (expr_of e.now)) }
{
    let size = resolved(source.alloc, source.places, &k.names, e)?;
    let first = first_in_set(source, k, is_nested, t, e, &size)?;
    if let Some(found) = first {
        return Err(found.refusal);
    }
    let size = size_of(source, host_value(&size, &[], &[]));
    add_set(k, x, size)?;
    Ok(())
}

// Notes what is wrong with a dat on this set, with these values.
#[tactic(auto, using(bound_program::proofs::Public::least_append))]
fn note_dat(
    source: &Source<'_>,
    first: &mut Option<Found>,
    k: &Declared,
    t: usize,
    set: &Ident,
    n: NumberLiteral,
    l: &TextLiteral,
    array: &Ident,
) -> Result<(), OutOfMemory>
    ensures { OnOk result (first.new ≡ least_from first.old
        (dat_found source.now.places.now source.now.entries.now.entries (declared_of k.now) t set.now n l.now array.now)) }
{
    let dim = n.value.unsigned_abs();
    let is_array = is_extern_array(k.names.means(&array.name));
    let values = values_named(source.entries, &array.name);
    let awaits = awaited(&k.mesh, set_of(k.names.means(&set.name)), dim);
    note_set(source, first, k, set);
    note_dim(source, first, n);
    note_type(source, first, l);
    note_data(source, first, is_array, values, awaits, array);
    note_cells(
        source,
        first,
        k.filled,
        known(is_array, values).len() as u64,
        t,
    )
}

// One dat more.
fn add_dat(
    source: &Source<'_>,
    k: &mut Declared,
    x: &Ident,
    set: u32,
    dim: u32,
    values: &[i32],
) -> Result<(), OutOfMemory>
    requires set { set < set_count k.old.mesh }
    requires dim { 0 < dim }
    requires size { length values.now ≡ set_size k.old.mesh set * dim }
    ensures { OnOk result (declared_of k.new ≡ record (declared_of k.old) {
      filled = k.old.filled + length values.now;
      mesh = with_dat x.now.name set dim values.now k.old.mesh;
      names = declare x.now.name (Meaning.Dat (dat_count k.old.mesh)) (declared_of k.old).names;
    }) }
{
    let Some(filled) = k.filled.checked_add(values.len() as u64) else {
        return Err(AllocError);
    };
    let name = x.name.clone()?;
    let items = values.to_vec(source.alloc)?;
    let number = k.mesh.add_dat(name, set, dim, items)?;
    k.filled = filled;
    k.names.declare(&x.name, Meaning::Dat(number))
}

// The first of what is wrong with the declaration of a dat.
#[tactic(auto, using(bound_program::proofs::Public::first_of_three))]
fn first_in_dat(
    source: &Source<'_>,
    k: &Declared,
    is_nested: bool,
    t: usize,
    set: &Ident,
    n: NumberLiteral,
    l: &TextLiteral,
    values: &Ident,
) -> Result<Option<Found>, OutOfMemory>
    ensures { IfOk result (λ f. f ≡ first_of
        (dat_decl_found source.now.places.now source.now.entries.now.entries (declared_of k.now)
        is_nested t set.now n l.now values.now)) }
{
    let mut first = None;
    note_place(source, &mut first, k, is_nested, t);
    note_over(
        &mut first,
        Turn::InOrder,
        MAX_DATS,
        k.mesh.dat_count() as u64 + 1,
        t,
        Counted::Dats,
    );
    note_dat(source, &mut first, k, t, set, n, l, values)?;
    Ok(first)
}

/// `op_dat x = op_decl_dat(set, n, l, array, "..");`, its word at the token t. The names of sets stand for those of the
/// mesh.
pub fn judged_dat(
    source: &Source<'_>,
    k: &mut Declared,
    is_nested: bool,
    t: usize,
    x: &Ident,
    set: &Ident,
    n: NumberLiteral,
    l: &TextLiteral,
    array: &Ident,
) -> Result<(), BindRefusal>
    requires { SetsKnown (declared_of k.old) }
    ensures { Judges result (declared_of k.new)
        (judged_dat source.now.places.now source.now.entries.now.entries (declared_of k.old)
        is_nested t x.now set.now n l.now array.now) }
{
    let first = first_in_dat(source, k, is_nested, t, set, n, l, array)?;
    if let Some(found) = first {
        return Err(found.refusal);
    }
    let set = or_zero(set_of(k.names.means(&set.name)));
    let is_array = is_extern_array(k.names.means(&array.name));
    let values = known(is_array, values_named(source.entries, &array.name));
    add_dat(source, k, x, set, n.value.unsigned_abs(), values)?;
    Ok(())
}

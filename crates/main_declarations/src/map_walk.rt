// Declarations of maps. The targets are gone through once: as the map is added, or, where something else is wrong with
// it, to find whether one of them counts before.

ghost use Rattle.std.specs.Prelude.{◌≡◌, ◌<◌, ◌+◌, ◌*◌, length, Some, None, IfOk, OnOk};
ghost use Rattle.std.specs.Option.{option_or};
ghost use Rattle.mesh_decl.specs.Mesh.{set_count, map_count, set_size};
ghost use Rattle.main_declarations.specs.Names.{declare};
ghost use Rattle.bound_program.specs.Refusals.{least_from, first_of, unless_found, Judges};
ghost use Rattle.main_declarations.specs.Declarations.{with_map, first_stray, stray_found, map_decl_found, judged_map};
ghost use Rattle.main_declarations.specs.KnownSets.{SetsKnown};
ghost use Rattle.main_declarations.specs.Targets.{target_refusal, shape_found, shape_decl_found, targets_found, strays_found};
ghost use Rattle.main_declarations.specs.Walks.{declared_of};

use crate::mesh_notes::{
    awaited, note_cells, note_data, note_dim, note_place, note_set, note_targets,
};
use crate::names::{
    Declared, Meaning, Source, is_extern_array, known, or_zero, set_of, values_named,
};
use bound_program::MAX_MAPS;
use bound_program::refusals::{BindRefusal, Counted, Found, Turn, note_over, place};
use c_tree::{Ident, NumberLiteral};
use mesh_decl::MapRefusal;
use op_num::{Name, OutOfMemory};

// Notes what is wrong with a map between these sets, with these values, its targets aside.
#[tactic(auto, using(bound_program::proofs::Public::least_append))]
fn note_shape(
    source: &Source<'_>,
    first: &mut Option<Found>,
    k: &Declared,
    t: usize,
    from: &Ident,
    to: &Ident,
    n: NumberLiteral,
    array: &Ident,
) -> Result<(), OutOfMemory>
    ensures { OnOk result (first.new ≡ least_from first.old
        (shape_found source.now.places.now source.now.entries.now.entries (declared_of k.now) t from.now to.now n array.now)) }
{
    let dim = n.value.unsigned_abs();
    let is_array = is_extern_array(k.names.means(&array.name));
    let values = values_named(source.entries, &array.name);
    let awaits = awaited(&k.mesh, set_of(k.names.means(&from.name)), dim);
    note_set(source, first, k, from);
    note_set(source, first, k, to);
    note_dim(source, first, n);
    note_data(source, first, is_array, values, awaits, array);
    note_cells(
        source,
        first,
        k.filled,
        known(is_array, values).len() as u64,
        t,
    )
}

// The first of what is wrong with the declaration of a map, its targets aside.
#[tactic(auto, using(bound_program::proofs::Public::first_of_three))]
fn first_in_shape(
    source: &Source<'_>,
    k: &Declared,
    is_nested: bool,
    t: usize,
    from: &Ident,
    to: &Ident,
    n: NumberLiteral,
    values: &Ident,
) -> Result<Option<Found>, OutOfMemory>
    ensures { IfOk result (λ f. f ≡ first_of
        (shape_decl_found source.now.places.now source.now.entries.now.entries (declared_of k.now)
        is_nested t from.now to.now n values.now)) }
{
    let mut first = None;
    note_place(source, &mut first, k, is_nested, t);
    note_over(
        &mut first,
        Turn::InOrder,
        MAX_MAPS,
        k.mesh.map_count() as u64 + 1,
        t,
        Counted::Maps,
    );
    note_shape(source, &mut first, k, t, from, to, n, values)?;
    Ok(first)
}

// The first of this and of what is wrong with the targets of a map.
fn first_with_targets(
    source: &Source<'_>,
    found: Found,
    k: &Declared,
    from: &Ident,
    to: &Ident,
    n: NumberLiteral,
    array: &Ident,
) -> Option<Found>
    ensures { result ≡ least_from (Some found)
        (targets_found source.now.places.now source.now.entries.now.entries (declared_of k.now) from.now to.now n array.now) }
{
    let dim = n.value.unsigned_abs();
    let is_array = is_extern_array(k.names.means(&array.name));
    let values = values_named(source.entries, &array.name);
    let awaits = awaited(&k.mesh, set_of(k.names.means(&from.name)), dim);
    let to = set_of(k.names.means(&to.name));
    let mut first = Some(found);
    note_targets(
        source, &mut first, &k.mesh, dim, array, is_array, values, awaits, to,
    );
    first
}

// The first of what is wrong with the declaration of a map; none where it can only be a target.
fn first_in_map(
    source: &Source<'_>,
    k: &Declared,
    is_nested: bool,
    t: usize,
    from: &Ident,
    to: &Ident,
    n: NumberLiteral,
    array: &Ident,
) -> Result<Option<Found>, OutOfMemory>
    ensures first { IfOk result (λ f. first_of
        (map_decl_found source.now.places.now source.now.entries.now.entries (declared_of k.now)
        is_nested t from.now to.now n array.now)
        ≡ option_or f (first_of
        (strays_found source.now.places.now source.now.entries.now.entries (declared_of k.now) to.now n array.now))) }
    ensures shape { IfOk result (λ f. f ≡ None → first_of
        (shape_decl_found source.now.places.now source.now.entries.now.entries (declared_of k.now)
        is_nested t from.now to.now n array.now) ≡ None) }
{
    match first_in_shape(source, k, is_nested, t, from, to, n, array)? {
        None => Ok(None),
        Some(found) => Ok(first_with_targets(source, found, k, from, to, n, array)),
    }
}

// The refusal of the map of that number, whose values have this name.
fn target_refusal(source: &Source<'_>, map: u32, array: &Ident, refusal: MapRefusal) -> BindRefusal
    ensures { result ≡ target_refusal source.now.places.now map array.now refusal }
{
    match refusal {
        MapRefusal::Target {
            element,
            place: target,
        } => BindRefusal::MapTarget {
            at: place(source.places, array.at),
            map,
            element,
            place: target,
        },
        MapRefusal::OutOfMemory => BindRefusal::OutOfMemory,
    }
}

// The name, held apart.
fn own_name(x: &Ident) -> Result<Name, OutOfMemory>
    ensures { IfOk result (λ name. name ≡ x.now.name) }
{
    Ok(x.name.clone()?)
}

// The map of that number is known, and so many cells of the mesh are filled.
fn declare_map(k: &mut Declared, x: &Ident, number: u32, filled: u64) -> Result<(), OutOfMemory>
    ensures { OnOk result (declared_of k.new ≡ record (declared_of k.old) {
      filled = filled;
      names = declare x.now.name (Meaning.Map number) (declared_of k.old).names;
    }) }
{
    k.filled = filled;
    k.names.declare(&x.name, Meaning::Map(number))
}

// One map more, or the refusal of its first target that is no element.
fn add_map(
    source: &Source<'_>,
    k: &mut Declared,
    x: &Ident,
    from: u32,
    to: u32,
    dim: u32,
    array: &Ident,
    values: &[i32],
) -> Result<(), BindRefusal>
    requires from { from < set_count k.old.mesh }
    requires to { to < set_count k.old.mesh }
    requires dim { 0 < dim }
    requires size { length values.now ≡ set_size k.old.mesh from * dim }
    ensures { Judges result (declared_of k.new) (unless_found
        (stray_found source.now.places.now (map_count k.old.mesh) dim array.now (first_stray (set_size k.old.mesh to) 0 values.now))
        (record (declared_of k.old) {
          filled = k.old.filled + length values.now;
          mesh = with_map x.now.name from to dim values.now k.old.mesh;
          names = declare x.now.name (Meaning.Map (map_count k.old.mesh)) (declared_of k.old).names;
        })) }
{
    let Some(filled) = k.filled.checked_add(values.len() as u64) else {
        return Err(BindRefusal::OutOfMemory);
    };
    let map = k.mesh.map_count();
    let name = own_name(x)?;
    let targets = values.to_vec(source.alloc)?;
    match k.mesh.add_map(name, from, to, dim, targets) {
        Err(refusal) => Err(target_refusal(source, map, array, refusal)),
        Ok(number) => {
            declare_map(k, x, number, filled)?;
            Ok(())
        }
    }
}

/// `op_map x = op_decl_map(from, to, n, array, "..");`, its word at the token t. The names of sets stand for those of
/// the mesh.
pub fn judged_map(
    source: &Source<'_>,
    k: &mut Declared,
    is_nested: bool,
    t: usize,
    x: &Ident,
    from: &Ident,
    to: &Ident,
    n: NumberLiteral,
    array: &Ident,
) -> Result<(), BindRefusal>
    requires { SetsKnown (declared_of k.old) }
    ensures { Judges result (declared_of k.new)
        (judged_map source.now.places.now source.now.entries.now.entries (declared_of k.old)
        is_nested t x.now from.now to.now n array.now) }
{
    let first = first_in_map(source, k, is_nested, t, from, to, n, array)?;
    if let Some(found) = first {
        return Err(found.refusal);
    }
    let from = or_zero(set_of(k.names.means(&from.name)));
    let to = or_zero(set_of(k.names.means(&to.name)));
    let is_array = is_extern_array(k.names.means(&array.name));
    let values = known(is_array, values_named(source.entries, &array.name));
    add_map(
        source,
        k,
        x,
        from,
        to,
        n.value.unsigned_abs(),
        array,
        values,
    )
}

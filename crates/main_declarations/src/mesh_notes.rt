// What is wrong with the declaration of a set, a map or a dat.

ghost use Rattle.std.specs.Prelude.{◌≡◌, ◌<◌, ◌≤◌, ◌+◌, ◌*◌, ◌^◌, codes, length, pos, IfSome, IfOk, OnOk};
ghost use Rattle.std.specs.Str.{bytes_eq};
ghost use Rattle.c_tree.specs.View.{expr_of};
ghost use Rattle.mesh_decl.specs.Mesh.{set_size, is_element as is_element_of};
ghost use Rattle.kernel_model.specs.View.{rexpr_of};
ghost use Rattle.bound_program.specs.HostExpr.{value, is_static};
ghost use Rattle.bound_program.specs.Refusals.{least_from};
ghost use Rattle.main_declarations.specs.Meanings.{array_if};
ghost use Rattle.main_declarations.specs.Declarations.{awaited, are_awaited, is_dim, first_stray, place_found, set_found, dim_found};
ghost use Rattle.main_declarations.specs.Declarations.{type_found, data_found, stray_found, target_found, cells_found, value_found};
ghost use Rattle.main_declarations.specs.Walks.{declared_of};

use crate::names::{Declared, Source, set_of, set_size};
use bound_program::refusals::{
    BindRefusal, Counted, Found, Turn, note_if, note_in, note_over, place,
};
use bound_program::{MAX_CELLS, MAX_DIM, MAX_SIZE};
use c_tree::{Ident, NumberLiteral, TextLiteral};
use kernel_model::types::KernelFault;
use mesh_decl::{Entries, Entry, Mesh};
use op_num::{Name, OutOfMemory, Text};
use std::alloc::AllocError;

// A dim that a map or a dat can have.
fn is_dim(n: u32) -> bool
    ensures { result ≡ is_dim n }
{
    0 < n && !(64 < n)
}

/// How many values are awaited; none where the set or the dim is refused.
pub fn awaited(mesh: &Mesh, set: Option<u32>, dim: u32) -> Option<u64>
    ensures count { result ≡ awaited mesh.now set dim }
    ensures few { IfSome result (λ n. (0 < dim) × (n ≤ 2 ^ 32 * dim)) }
{
    match set {
        None => None,
        Some(s) => {
            if is_dim(dim) {
                Some(set_size(mesh, s) as u64 * dim as u64)
            } else {
                None
            }
        }
    }
}

/// Notes a declaration that stands in a block, `if` or `for`, or behind a loop.
pub fn note_place(
    source: &Source<'_>,
    first: &mut Option<Found>,
    k: &Declared,
    is_nested: bool,
    t: usize,
)
    ensures { first.new ≡ least_from first.old (place_found source.now.places.now (declared_of k.now) is_nested t) }
{
    let at = place(source.places, t);
    let is_wrong = is_nested || 0 < k.sites.len();
    note_if(first, is_wrong, t, BindRefusal::DeclarationPlace { at });
}

/// Notes where no set is meant.
pub fn note_set(source: &Source<'_>, first: &mut Option<Found>, k: &Declared, x: &Ident)
    ensures { first.new ≡ least_from first.old (set_found source.now.places.now (declared_of k.now) x.now) }
{
    let at = place(source.places, x.at);
    let is_wrong = set_of(k.names.means(&x.name)).is_none();
    note_if(first, is_wrong, x.at, BindRefusal::UnknownSet { at });
}

/// Notes a dim that is 0 or above its limit.
#[tactic(auto, using(bound_program::proofs::Public::least_append))]
pub fn note_dim(source: &Source<'_>, first: &mut Option<Found>, n: NumberLiteral)
    ensures { first.new ≡ least_from first.old (dim_found source.now.places.now n) }
{
    let at = place(source.places, n.at);
    let dim = n.value.unsigned_abs();
    note_if(first, dim == 0, n.at, BindRefusal::DimMismatch { at });
    note_over(
        first,
        Turn::InOrder,
        MAX_DIM,
        dim as u64,
        n.at,
        Counted::Dim,
    );
}

fn is_int(text: &Text) -> bool
    ensures { result ≡ bytes_eq text.now (codes "int") }
{
    text.bytes() == b"int".as_slice()
}

/// Notes a type that isn't `int`.
pub fn note_type(source: &Source<'_>, first: &mut Option<Found>, l: &TextLiteral)
    ensures { first.new ≡ least_from first.old (type_found source.now.places.now l.now) }
{
    let at = place(source.places, l.at);
    note_if(
        first,
        !is_int(&l.text),
        l.at,
        BindRefusal::TypeMismatch { at },
    );
}

// There are as many values as are awaited.
fn are_awaited(awaits: Option<u64>, values: &[i32]) -> bool
    ensures { result ≡ are_awaited awaits values.now }
{
    match awaits {
        None => true,
        Some(n) => values.len() as u64 == n,
    }
}

/// Notes where no extern array is meant, or one that hasn't as many values as are awaited.
pub fn note_data(
    source: &Source<'_>,
    first: &mut Option<Found>,
    is_array: bool,
    values: &[i32],
    awaits: Option<u64>,
    x: &Ident,
)
    ensures { first.new ≡ least_from first.old (data_found source.now.places.now (array_if is_array values.now) awaits x.now) }
{
    let at = place(source.places, x.at);
    if is_array {
        let is_wrong = !are_awaited(awaits, values);
        note_if(first, is_wrong, x.at, BindRefusal::DimMismatch { at });
    } else {
        note_if(first, true, x.at, BindRefusal::UnknownEntry { at });
    }
}

fn is_element(size: u32, target: &i32) -> bool
    ensures { result ≡ is_element_of size target.now }
{
    let target = *target;
    target >= 0 && (target as u32) < size
}

// The index of the first value that is no element of a set of this size.
#[tactic(auto, using(crate::proofs::Strays::stray_go, crate::proofs::Strays::stray_stops))]
fn first_stray(size: u32, values: &[i32]) -> Option<usize>
    ensures stray { result ≡ first_stray size 0 values.now }
    ensures within { IfSome result (λ i. i < length values.now) }
{
    let mut index = 0;
    for value in values {
        if !is_element(size, value) {
            return Some(index);
        }
        index += 1;
    }
    None
}

// Notes this value as the first that is no element of the map's target set.
fn note_index(
    source: &Source<'_>,
    first: &mut Option<Found>,
    map: u32,
    dim: u32,
    x: &Ident,
    stray: Option<usize>,
)
    requires dim { 0 < dim }
    requires element { IfSome stray (λ i. i < 2 ^ 32 * dim) }
    ensures { first.new ≡ least_from first.old (stray_found source.now.places.now map dim x.now stray) }
{
    let Some(index) = stray else {
        return;
    };
    let dim = dim as usize;
    let at = place(source.places, x.at);
    let element = (index / dim) as u32;
    let place = (index % dim) as u32;
    note_if(
        first,
        true,
        x.at,
        BindRefusal::MapTarget {
            at,
            map,
            element,
            place,
        },
    );
}

/// Notes the first value that is no element of the map's target set, where that is known, and the values are those that
/// are awaited, of a set with fewer than 2^32 elements.
pub fn note_targets(
    source: &Source<'_>,
    first: &mut Option<Found>,
    mesh: &Mesh,
    dim: u32,
    x: &Ident,
    is_array: bool,
    values: &[i32],
    awaits: Option<u64>,
    to: Option<u32>,
)
    requires { IfSome awaits (λ n. (0 < dim) × (n ≤ 2 ^ 32 * dim)) }
    ensures { first.new ≡ least_from first.old
        (target_found source.now.places.now mesh.now dim x.now (array_if is_array values.now) awaits to) }
{
    if !is_array {
        return;
    }
    let Some(n) = awaits else {
        return;
    };
    let Some(to) = to else {
        return;
    };
    if values.len() as u64 != n {
        return;
    }
    let stray = first_stray(set_size(mesh, to), values);
    note_index(source, first, mesh.map_count(), dim, x, stray)
}

/// Notes a mesh that has too many cells with this declaration.
pub fn note_cells(
    source: &Source<'_>,
    first: &mut Option<Found>,
    filled: u64,
    added: u64,
    t: usize,
) -> Result<(), OutOfMemory>
    ensures { OnOk result (first.new ≡ least_from first.old (cells_found source.now.places.now t (filled + added))) }
{
    let _source = source;
    let Some(size) = filled.checked_add(added) else {
        return Err(AllocError);
    };
    note_over(
        first,
        Turn::MeshCells,
        MAX_CELLS,
        size,
        t,
        Counted::MeshCells,
    );
    Ok(())
}

/// Notes what is wrong with the value of a size.
#[tactic(auto, using(bound_program::proofs::Public::least_append))]
pub fn note_value(
    source: &Source<'_>,
    first: &mut Option<Found>,
    k: &Declared,
    t: usize,
    at: usize,
    value: Result<i32, KernelFault>,
) -> Result<(), OutOfMemory>
    ensures { OnOk result (first.new ≡ least_from first.old (value_found source.now.places.now (declared_of k.now) t at value)) }
{
    match value {
        Err(_) => {
            let refusal = BindRefusal::ControlNotStatic {
                at: place(source.places, at),
            };
            note_if(first, true, at, refusal);
            Ok(())
        }
        Ok(z) => {
            if z < 0 {
                let refusal = BindRefusal::DimMismatch {
                    at: place(source.places, at),
                };
                note_in(first, Turn::SizeValue, true, at, refusal);
                return Ok(());
            }
            let size = z as u64;
            note_over(first, Turn::SizeValue, MAX_SIZE, size, t, Counted::SetSize);
            note_cells(source, first, k.filled, size, t)
        }
    }
}

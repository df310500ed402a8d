// What the names that a declaration or a loop takes stand for.

ghost use Rattle.std.specs.Prelude.{◌≡◌};
ghost use Rattle.main_declarations.specs.Meanings.{set_of, map_of, dat_of, or_zero, or_none, is_extern_array, array_if, values_named};

use crate::names::scopes::Meaning;
use mesh_decl::{Entries, Entry};
use op_num::Name;

/// The number of a set.
pub fn set_of(meaning: Option<Meaning>) -> Option<u32>
    ensures { result ≡ set_of meaning }
{
    match meaning {
        Some(Meaning::Set(s)) => Some(s),
        _ => None,
    }
}

/// The number of a map.
pub fn map_of(meaning: Option<Meaning>) -> Option<u32>
    ensures { result ≡ map_of meaning }
{
    match meaning {
        Some(Meaning::Map(m)) => Some(m),
        _ => None,
    }
}

/// The number of a dat.
pub fn dat_of(meaning: Option<Meaning>) -> Option<u32>
    ensures { result ≡ dat_of meaning }
{
    match meaning {
        Some(Meaning::Dat(d)) => Some(d),
        _ => None,
    }
}

/// The number, or 0 where there is none.
pub fn or_zero(number: Option<u32>) -> u32
    ensures { result ≡ or_zero number }
{
    match number {
        Some(n) => n,
        None => 0,
    }
}

/// Whether it is an extern array.
pub fn is_extern_array(meaning: Option<Meaning>) -> bool
    ensures { result ≡ is_extern_array meaning }
{
    matches!(meaning, Some(Meaning::ExternArray))
}

/// The values of the entry with this name.
pub fn values_named<'a>(entries: &'a Entries, name: &Name) -> &'a [i32]
    ensures { result.now ≡ values_named entries.now.entries name.now }
{
    match entries.get(name) {
        Some(Entry::Many(values)) => values.as_slice(),
        _ => &[],
    }
}

/// The values, where they are those of an extern array.
pub fn known(is_array: bool, values: &[i32]) -> &[i32]
    ensures { result.now ≡ or_none (array_if is_array values.now) }
{
    if is_array { values } else { &[] }
}

// What a loop hands to its kernel for an element, where a program begins.
ghost use Rattle.std.specs.Prelude.{◌≡◌, ◌<◌, ◌++◌, ◌∷◌, ℕ, Some, codes, take, drop, slice_get, OnOk};
ghost use Rattle.mesh_decl.specs.Mesh.{set_size, dat_set, dat_count, dat_name};
ghost use Rattle.std.specs.Fmt.{decimal};
ghost use Rattle.bound_program.specs.Values.{bound_of, item_of, site_of};
ghost use Rattle.bound_program.specs.Fits.{Fits, SiteFits, ArgFits, ViaFits};
ghost use Rattle.explanations.specs.Values.{element_in, free_loop_of, free_loop_in, spaced, row_of, reached, shown_value, shown_values};
ghost use Rattle.explanations.specs.Values.{shown_at_site, shown_arguments};

use crate::error_loops::faults::{item_in, site_at};
use crate::word_number;
use bound_program::{Arg, Bound, Item, Mesh, Site, Var, Via};
use op_num::{OutOfMemory, put_i32, put_u64};

// The loop that an item runs, where that is a Free one.
fn free_loop_of(item: &Item) -> Option<u32>
    ensures { result ≡ free_loop_of (item_of item.now) }
{
    match item {
        Item::Free { site } => Some(*site),
        Item::Reduce { .. } | Item::Ordered { .. } | Item::Host { .. } => None,
    }
}

/// The number of the Free loop that the item of a fault runs, of which this line tells; none where it runs no such
/// loop.
pub fn free_loop_in(bound: &Bound, line: &[u8]) -> Option<u32>
    ensures { result ≡ free_loop_in (bound_of bound.now) line.now }
{
    let item = item_in(line)?;
    free_loop_of(bound.trace.get(item as usize)?)
}

// The element that the line of a fault names.
fn element_in(line: &[u8]) -> Option<u64>
    ensures { result ≡ element_in line.now }
{
    word_number(line, 5)
}

// Numbers, each behind a space.
fn put_spaced(out: &mut Vec<u8>, numbers: &[i32]) -> Result<(), OutOfMemory>
    ensures { OnOk result (out.new.items ≡ out.old.items ++ spaced numbers.now) }
{
    for number in numbers {
        out.push(b' ')?;
        put_i32(out, *number)?;
    }
    Ok(())
}

// So many of the values from a place on, as far as there are some.
fn part_of(values: &[i32], from: usize, count: usize) -> &[i32]
    ensures { result.now ≡ take count (drop from values.now) }
{
    if from >= values.len() {
        return &[];
    }
    let rest = &values[from..];
    &rest[..count.min(rest.len())]
}

// The values of a dat at an element.
fn row_of(mesh: &Mesh, dat: u32, element: u32) -> &[i32]
    requires { dat < dat_count mesh.now }
    ensures { result.now ≡ row_of mesh.now dat element }
{
    let (_, dim) = mesh.dat_shape(dat);
    let from = element as usize * dim as usize;
    part_of(mesh.dat_values(dat), from, dim as usize)
}

// The element to which an argument on a dat leads from one of the loop's set.
fn reached(bound: &Bound, dat: u32, element: u32, via: Option<Via>) -> u32
    requires { (set : ℕ) × ViaFits (bound_of bound.now) set dat via × (element < set_size bound.now.mesh set) }
    ensures value { result ≡ reached bound.now.mesh element via }
    ensures within { result < set_size bound.now.mesh (dat_set bound.now.mesh dat) }
{
    match via {
        Some(via) => bound.mesh.target(via.map, element, via.index),
        None => element,
    }
}

// The values of a dat where an argument leads.
fn put_row(
    out: &mut Vec<u8>,
    bound: &Bound,
    dat: u32,
    via: Option<Via>,
    element: u32,
) -> Result<(), OutOfMemory>
    requires dat { dat < dat_count bound.now.mesh }
    requires via { (set : ℕ) × ViaFits (bound_of bound.now) set dat via × (element < set_size bound.now.mesh set) }
    ensures { OnOk result (out.new.items ≡ out.old.items
        ++ dat_name bound.now.mesh dat ++ codes " at " ++ decimal (reached bound.now.mesh element via) ++ codes ":"
        ++ spaced (row_of bound.now.mesh dat (reached bound.now.mesh element via))) }
{
    let there = reached(bound, dat, element, via);
    out.extend_from_slice(bound.mesh.dat_name(dat).bytes())?;
    out.extend_from_slice(b" at ")?;
    put_u64(out, u64::from(there))?;
    out.extend_from_slice(b":")?;
    put_spaced(out, row_of(&bound.mesh, dat, there))
}

// A variable with its values.
fn put_var(out: &mut Vec<u8>, var: &Var) -> Result<(), OutOfMemory>
    ensures { OnOk result (out.new.items ≡ out.old.items ++ var.now.name ++ codes ":" ++ spaced var.now.start) }
{
    out.extend_from_slice(var.name.bytes())?;
    out.extend_from_slice(b":")?;
    put_spaced(out, var.start.as_slice())
}

// An argument with its values for an element of the loop's set.
fn put_value(out: &mut Vec<u8>, bound: &Bound, arg: Arg, element: u32) -> Result<(), OutOfMemory>
    requires { (set : ℕ) × ArgFits (bound_of bound.now) set arg × (element < set_size bound.now.mesh set) }
    ensures { OnOk result (out.new.items ≡ out.old.items ++ shown_value (bound_of bound.now) element arg) }
{
    match arg {
        Arg::Dat { dat, via, .. } => put_row(out, bound, dat, via, element),
        Arg::Global { var, .. } => put_var(out, &bound.vars[var as usize]),
    }
}

// The arguments of a loop with their values for an element of its set.
fn put_values(
    out: &mut Vec<u8>,
    bound: &Bound,
    site: &Site,
    element: u32,
) -> Result<(), OutOfMemory>
    requires site { SiteFits (bound_of bound.now) (site_of site.now) }
    requires element { element < set_size bound.now.mesh site.now.set }
    ensures { OnOk result (out.new.items ≡ out.old.items ++ shown_values (bound_of bound.now) element 1 site.now.args.items) }
{
    for place in 0..site.args.len() {
        out.extend_from_slice(b"argument ")?;
        put_u64(out, place as u64 + 1)?;
        out.extend_from_slice(b", ")?;
        put_value(out, bound, site.args[place], element)?;
        out.extend_from_slice(b"\n")?;
    }
    Ok(())
}

// The same for an element by its number, if there is one.
fn put_here(out: &mut Vec<u8>, bound: &Bound, site: &Site, element: u64) -> Result<(), OutOfMemory>
    requires { SiteFits (bound_of bound.now) (site_of site.now) }
    ensures { OnOk result (out.new.items ≡ out.old.items ++ shown_at_site (bound_of bound.now) element (Some (site_of site.now))) }
{
    if element < u64::from(bound.mesh.set_size(site.set)) {
        put_values(out, bound, site, element as u32)
    } else {
        Ok(())
    }
}

// The same for a loop by its number, if there is one.
fn put_at_site(out: &mut Vec<u8>, bound: &Bound, site: u32, element: u64) -> Result<(), OutOfMemory>
    requires { Fits (bound_of bound.now) }
    ensures { OnOk result (out.new.items ≡ out.old.items
        ++ shown_at_site (bound_of bound.now) element (slice_get (bound_of bound.now).sites site)) }
{
    match site_at(bound, site) {
        Some(there) => put_here(out, bound, there, element),
        None => Ok(()),
    }
}

/// Appends what the loop of this number hands to its kernel, where the program begins, for the element that the line of
/// a fault names: for each argument a line with its number from 1, the dat's name, the element to which it leads and
/// its values there, or the variable's name and its values. Nothing is appended where there is no such loop or element.
/// An error is want of memory.
pub fn put_arguments(
    out: &mut Vec<u8>,
    bound: &Bound,
    line: &[u8],
    site: u32,
) -> Result<(), OutOfMemory>
    requires { Fits (bound_of bound.now) }
    ensures { OnOk result (out.new.items ≡ out.old.items ++ shown_arguments (bound_of bound.now) line.now site) }
{
    match element_in(line) {
        Some(element) => put_at_site(out, bound, site, element),
        None => Ok(()),
    }
}

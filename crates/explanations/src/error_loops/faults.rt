// What is said of the loop that a fault is in.
ghost use Rattle.std.specs.Prelude.{◌≡◌, ◌++◌, ◌<◌, Some, codes, option_map, length, slice_get, OnOk};
ghost use Rattle.std.specs.Fmt.{decimal};
ghost use Rattle.bound_program.specs.Values.{bound_of, site_of};
ghost use Rattle.explanations.specs.Faults.{tells_fault, item_in, turn_of, name_of, shown_turn, shown_loop, shown_item};

use crate::error_loops::placed::put_placed;
use crate::error_loops::turns::{loop_of, turns_in};
use crate::word_number;
use bound_program::{Bound, RKernel, Site};
use op_num::{OutOfMemory, put_u64};

/// Whether a line of `op2` tells a fault.
pub fn tells_fault(line: &[u8]) -> bool
    ensures { result ≡ tells_fault line.now }
{
    line.starts_with(b"op2: fault ")
}

/// The number of the item that the line of a fault names, from 0.
pub fn item_in(line: &[u8]) -> Option<u64>
    ensures { result ≡ item_in line.now }
{
    word_number(line, 3)
}

// The turn of a loop that an item is, from 1.
fn turn_of(bound: &Bound, site: u32, item: usize) -> u64
    requires { item < length bound.now.trace.items }
    ensures { result ≡ turn_of (bound_of bound.now) site item }
{
    turns_in(&bound.trace[..item], site) + 1
}

// The name of a kernel, if it is there.
fn name_of(kernel: Option<&RKernel>) -> &[u8]
    ensures { result.now ≡ name_of (option_map (λ k. k.now) kernel.entry) }
{
    match kernel {
        Some(kernel) => kernel.name.bytes(),
        None => b"",
    }
}

/// The loop of this number, if there is one.
pub fn site_at(bound: &Bound, site: u32) -> Option<&Site>
    ensures { option_map (λ s. site_of s.now) result ≡ slice_get (bound_of bound.now).sites site }
{
    bound.sites.get(site as usize)
}

// An item and its turn, both by number.
fn put_numbers(out: &mut Vec<u8>, item: usize, turn: u64) -> Result<(), OutOfMemory>
    ensures { OnOk result (out.new.items ≡ out.old.items
        ++ codes "item " ++ decimal item ++ codes " is turn " ++ decimal turn ++ codes " of loop ") }
{
    out.extend_from_slice(b"item ")?;
    put_u64(out, item as u64)?;
    out.extend_from_slice(b" is turn ")?;
    put_u64(out, turn)?;
    out.extend_from_slice(b" of loop ")
}

// The name of the kernel of a loop.
fn put_name(out: &mut Vec<u8>, bound: &Bound, site: &Site) -> Result<(), OutOfMemory>
    ensures { OnOk result (out.new.items ≡ out.old.items ++ name_of (slice_get (bound_of bound.now).kernels site.now.kernel)) }
{
    out.extend_from_slice(name_of(bound.kernels.get(site.kernel as usize)))
}

// An item as the turn of this loop.
fn put_turn_of(
    out: &mut Vec<u8>,
    bound: &Bound,
    source: &[u8],
    item: usize,
    site: u32,
    there: &Site,
) -> Result<(), OutOfMemory>
    requires { item < length bound.now.trace.items }
    ensures { OnOk result (out.new.items ≡ out.old.items
        ++ shown_turn (bound_of bound.now) source.now item site (Some (site_of there.now))) }
{
    let turn = turn_of(bound, site, item);
    put_numbers(out, item, turn)?;
    put_name(out, bound, there)?;
    put_placed(out, source, there.at)
}

// The same, if the loop is there.
fn put_turn(
    out: &mut Vec<u8>,
    bound: &Bound,
    source: &[u8],
    item: usize,
    site: u32,
) -> Result<(), OutOfMemory>
    requires { item < length bound.now.trace.items }
    ensures { OnOk result (out.new.items ≡ out.old.items
        ++ shown_turn (bound_of bound.now) source.now item site (slice_get (bound_of bound.now).sites site)) }
{
    match site_at(bound, site) {
        Some(there) => put_turn_of(out, bound, source, item, site, there),
        None => Ok(()),
    }
}

// What an item is.
fn put_item(
    out: &mut Vec<u8>,
    bound: &Bound,
    source: &[u8],
    item: Option<u64>,
) -> Result<(), OutOfMemory>
    ensures { OnOk result (out.new.items ≡ out.old.items ++ shown_item (bound_of bound.now) source.now item) }
{
    let Some(item) = item else {
        return Ok(());
    };
    let Some(there) = bound.trace.get(item as usize) else {
        return Ok(());
    };
    match loop_of(there) {
        Some(site) => put_turn(out, bound, source, item as usize, site),
        None => Ok(()),
    }
}

/// Appends which turn of which loop of a bound program the fault is in of which this line tells: the item, its turn
/// from 1, the name of the loop's kernel, and the source's line of the loop with a caret under it. Nothing is appended
/// where the fault is in another statement. An error is want of memory.
pub fn put_fault_loop(
    out: &mut Vec<u8>,
    bound: &Bound,
    source: &[u8],
    line: &[u8],
) -> Result<(), OutOfMemory>
    ensures { OnOk result (out.new.items ≡ out.old.items ++ shown_item (bound_of bound.now) source.now (item_in line.now)) }
{
    put_item(out, bound, source, item_in(line))
}

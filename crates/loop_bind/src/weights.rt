// How much a program prints at most, and its limit.

ghost use Rattle.std.specs.Prelude.{◌≡◌, ◌≤◌, ◌+◌, ◌*◌, ◌^◌, length, map, IfSome, IfNone, Err};
ghost use Rattle.mesh_decl.specs.Mesh.{set_name, dat_name};
ghost use Rattle.bound_program.specs.declared.refusals.refusals.BindRefusal.TheVariants.{OutOfMemory};
ghost use Rattle.bound_program.specs.Refusals.{JudgesBy};
ghost use Rattle.bound_program.specs.Values.{item_of};
ghost use Rattle.loop_bind.specs.Weights.{line_weight, print_weight, weight, weight_of_all, within_weight};

use crate::main_text::conversions;
use bound_program::refusals::{BindRefusal, Counted};
use bound_program::{Act, Item, MAX_WEIGHT};
use main_declarations::names::{dat_shape, set_size};
use mesh_decl::Mesh;

// How long the name of a dat is; 0 where there is none.
#[tactic(auto, using(crate::proofs::NoNames::no_dat_name))]
fn dat_name_len(mesh: &Mesh, dat: u32) -> usize
    ensures { result ≡ length (dat_name mesh.now dat) }
{
    if dat < mesh.dat_count() {
        mesh.dat_name(dat).bytes().len()
    } else {
        0
    }
}

// How long the name of a set is; 0 where there is none.
#[tactic(auto, using(crate::proofs::NoNames::no_set_name))]
fn set_name_len(mesh: &Mesh, set: u32) -> usize
    ensures { result ≡ length (set_name mesh.now set) }
{
    if set < mesh.set_count() {
        mesh.set_name(set).bytes().len()
    } else {
        0
    }
}

// The bytes and 12 for each value; none where 64 bits cannot hold them.
fn with_values(bytes: usize, values: u64) -> Option<u64>
    ensures some { IfSome result (λ n. n ≡ bytes + 12 * values) }
    ensures none { IfNone result (2 ^ 64 ≤ bytes + 12 * values) }
{
    let shown = values.checked_mul(12)?;
    (bytes as u64).checked_add(shown)
}

// What `op_printf` prints at most.
fn line_weight(text: &[u8]) -> Option<u64>
    ensures some { IfSome result (λ n. n ≡ line_weight text.now) }
    ensures none { IfNone result (2 ^ 64 ≤ line_weight text.now) }
{
    let values = match conversions(text) {
        Some(n) => n as u64,
        None => 0,
    };
    with_values(text.len(), values)
}

// What `op_print_dat_to_txtfile` prints at most.
fn print_weight(mesh: &Mesh, dat: u32, file: &[u8]) -> Option<u64>
    ensures some { IfSome result (λ n. n ≡ print_weight mesh.now dat file.now) }
    ensures none { IfNone result (2 ^ 64 ≤ print_weight mesh.now dat file.now) }
{
    let (set, dim) = dat_shape(mesh, dat);
    let names = dat_name_len(mesh, dat).checked_add(set_name_len(mesh, set))?;
    let texts = file.len().checked_add(names)?;
    let bytes = texts.checked_add(64)?;
    with_values(bytes, set_size(mesh, set) as u64 * dim as u64)
}

// What an item prints at most; none where 64 bits cannot hold it.
fn weight(mesh: &Mesh, item: &Item) -> Option<u64>
    ensures some { IfSome result (λ n. n ≡ weight mesh.now (item_of item.now)) }
    ensures none { IfNone result (2 ^ 64 ≤ weight mesh.now (item_of item.now)) }
{
    let Item::Host { act } = item else {
        return Some(0);
    };
    match &*act.act {
        Act::Line { text, .. } => line_weight(text.bytes()),
        Act::Print { dat, file } => print_weight(mesh, *dat, file.bytes()),
        _ => Some(0),
    }
}

// What all items print at most.
#[tactic(auto, using(crate::proofs::Sums::weight_within))]
fn weight_of_all(mesh: &Mesh, items: &[Item]) -> Option<u64>
    ensures some { IfSome result (λ n. n ≡ weight_of_all mesh.now (map item_of items.now)) }
    ensures none { IfNone result (2 ^ 64 ≤ weight_of_all mesh.now (map item_of items.now)) }
{
    let mut sum = 0u64;
    for item in items {
        let Some(more) = weight(mesh, item) else {
            return None;
        };
        let Some(next) = sum.checked_add(more) else {
            return None;
        };
        sum = next;
    }
    Some(sum)
}

/// Refuses items that print more than the limit. Takes no memory; want of memory stands for a sum that 64 bits cannot
/// hold.
pub fn judged_weight(mesh: &Mesh, items: &[Item]) -> Result<(), BindRefusal>
    ensures judged { JudgesBy (λ t. t) result (within_weight (weight_of_all mesh.now (map item_of items.now))) }
    ensures memory { (result ≡ Err OutOfMemory) → 2 ^ 64 ≤ weight_of_all mesh.now (map item_of items.now) }
{
    let Some(size) = weight_of_all(mesh, items) else {
        return Err(BindRefusal::OutOfMemory);
    };
    if MAX_WEIGHT < size {
        return Err(BindRefusal::Limit {
            counted: Counted::PrintWeight,
            size,
        });
    }
    Ok(())
}

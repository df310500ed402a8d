// Keys and the tags that they are.
ghost use Rattle.std.specs.Prelude.{◌≡◌, ◌+◌, ◌-◌, ◌<◌, ◌≤◌, ◌^◌, ℕ, Some, None, IfOk, IfErr, MatchResult, length, slice_index, get_or};
ghost use Rattle.gmsh_mesh.specs.declared.tag_places.refusal.TagRefusal.TheVariants as Refusal;
ghost use Rattle.gmsh_mesh.specs.Places.{ArePlaces, IsRefused, AreHolders, IsRefusedClass, AreFound, IsRefusedFind};

use crate::equal_keys::classes;
use crate::tag_places::joining::joined;
use crate::tag_places::refusal::TagRefusal;
use std::alloc::Global;

/// For each of `keys`, at its place, the place of the tag that is equal to it, from 0; no two tags are equal. `Doubled`
/// exactly where two tags are equal, with the first place that has an equal tag in front of it; `Unknown` exactly where
/// no two tags are and a key is no tag, with the first such place. It takes time n log n.
pub fn tag_places(alloc: Global, tags: &[u32], keys: &[u32]) -> Result<Vec<u32>, TagRefusal>
    requires few { length tags.now + length keys.now < 2 ^ 32 }
    ensures places { IfOk result (λ of. ArePlaces tags.now keys.now of.items) }
    ensures refused { IfErr result (IsRefused tags.now keys.now) }
{
    let all = joined(alloc, tags, keys)?;
    let of = classes(alloc, &all)?;
    let holders = class_holders(alloc, &of, tags.len())?;
    find_places(alloc, &of, tags.len(), &holders)
}

// For each class a place among the first `count` where it stands.
fn class_holders(alloc: Global, of: &[u32], count: usize) -> Result<Vec<Option<u32>>, TagRefusal>
    requires few { length of.now < 2 ^ 32 }
    requires within { count ≤ length of.now }
    requires below { (i : ℕ) → i < length of.now → slice_index of.now i < length of.now }
    ensures holders { IfOk result (λ holders. AreHolders of.now count holders.items) }
    ensures refused { IfErr result (IsRefusedClass of.now count) }
{
    let mut holders = vec![in alloc; None; of.len()]?;
    for place in 0..count {
        hold_class(of, count, place, &mut holders)?;
    }
    Ok(holders)
}

// Takes the class at a place, behind those that were taken.
fn hold_class(
    of: &[u32],
    count: usize,
    place: usize,
    holders: &mut [Option<u32>],
) -> Result<(), TagRefusal>
    requires few { length of.now < 2 ^ 32 }
    requires within { (place < count) × (count ≤ length of.now) }
    requires below { slice_index of.now place < length of.now }
    requires so_far { AreHolders of.now place holders.old }
    ensures { MatchResult result (λ u. AreHolders of.now (place + 1) holders.new) (IsRefusedClass of.now count) }
{
    let class = of[place] as usize;
    match holders[class] {
        Some(_) => {
            Err(TagRefusal::Doubled {
                place: place as u32,
            })
        }
        None => {
            holders[class] = Some(place as u32);
            Ok(())
        }
    }
}

// For each class behind the first `from` the place among these where it stands.
fn find_places(
    alloc: Global,
    of: &[u32],
    from: usize,
    holders: &[Option<u32>],
) -> Result<Vec<u32>, TagRefusal>
    requires few { length of.now < 2 ^ 32 }
    requires within { from ≤ length of.now }
    requires below { (i : ℕ) → i < length of.now → slice_index of.now i < length of.now }
    requires holders { AreHolders of.now from holders.now }
    ensures found { IfOk result (λ found. AreFound of.now from (length of.now - from) found.items) }
    ensures refused { IfErr result (IsRefusedFind of.now from (length of.now - from)) }
{
    let mut found = Vec::with_capacity(alloc, of.len() - from)?;
    for place in from..of.len() {
        let holder = holder_of(holders, of[place], place - from)?;
        found.push(holder)?;
    }
    Ok(found)
}

// The holder of a class, which stands at this place behind the tags.
fn holder_of(holders: &[Option<u32>], class: u32, place: usize) -> Result<u32, TagRefusal>
    requires class { class < length holders.now }
    requires few { place < 2 ^ 32 }
    ensures found { IfOk result (λ holder. get_or holders.now class None ≡ Some holder) }
    ensures none { IfErr result (λ e. (get_or holders.now class None ≡ None) × (e ≡ Refusal.Unknown place)) }
{
    match holders[class as usize] {
        Some(holder) => Ok(holder),
        None => Err(TagRefusal::Unknown {
            place: place as u32,
        }),
    }
}

// The slices of a program are made.

ghost use Rattle.std.specs.Prelude.{◌≡◌, ◌<◌, ◌≤◌, ℕ, None, IfOk, IfSome, OnOk, length, slice_index, slice_index_or};
ghost use Rattle.mesh_decl.specs.Owners.{AreOwners};
ghost use Rattle.bound_program.specs.Values.{bound_of};
ghost use Rattle.bound_program.specs.Fits.{Fits};
ghost use Rattle.chain_needs.specs.declared.chain_slices.shapes.Shape.{Shape as TheShape};
ghost use Rattle.chain_needs.specs.Slices.{AreShapes, ArePlaces, IsPlace, Keeps, AreSlices, next_of};

use crate::chain_slices::shapes::{Shape, find_shape, shape_of};
use crate::chain_slices::sliced::{LevelAt, Slices};
use crate::{begins_chain, chain_count, chain_sites, free_site};
use bound_program::Bound;
use mesh_decl::Owners;
use op_num::OutOfMemory;
use std::alloc::Global;

// The number of the chain of these loops, which is made where it isn't kept yet.
fn kept_shape(
    alloc: Global,
    bound: &Bound,
    owners: &Owners,
    shapes: &mut Vec<Shape>,
    sites: Vec<u32>,
) -> Result<usize, OutOfMemory>
    requires fits { Fits (bound_of bound.now) }
    requires owners { AreOwners (bound_of bound.now).mesh owners.now }
    requires shapes { AreShapes (bound_of bound.now) owners.now shapes.old.items }
    requires some { 0 < length sites.items }
    requires sites { (k : ℕ) → k < length sites.items → slice_index sites.items k < length (bound_of bound.now).sites }
    ensures shapes { OnOk result (AreShapes (bound_of bound.now) owners.now shapes.new.items) }
    ensures keeps { OnOk result (Keeps shapes.old.items shapes.new.items) }
    ensures there { IfOk result (λ i. i < length shapes.new.items) }
    ensures of { IfOk result (λ i. (s : TheShape) → (slice_index_or shapes.new.items i s).sites.items ≡ sites.items) }
{
    if let Some(shape) = find_shape(shapes, &sites) {
        return Ok(shape);
    }
    shapes.push(shape_of(alloc, bound, owners, sites)?)?;
    Ok(shapes.len() - 1)
}

// The level behind that of an item, for the next one of its chain.
fn next_place(place: Option<LevelAt>) -> Option<LevelAt>
    requires { IfSome place (λ at. 0 < at.level) }
    ensures { result ≡ next_of place }
{
    match place {
        Some(at) => Some(LevelAt {
            shape: at.shape,
            level: at.level - 1,
        }),
        None => None,
    }
}

// Where the level of an item stands, whose chain is made where it isn't kept yet.
fn place_of(
    alloc: Global,
    bound: &Bound,
    owners: &Owners,
    item: usize,
    places: &[Option<LevelAt>],
    shapes: &mut Vec<Shape>,
) -> Result<Option<LevelAt>, OutOfMemory>
    requires fits { Fits (bound_of bound.now) }
    requires owners { AreOwners (bound_of bound.now).mesh owners.now }
    requires item { item < length (bound_of bound.now).trace }
    requires shapes { AreShapes (bound_of bound.now) owners.now shapes.old.items }
    requires places { ArePlaces (bound_of bound.now) shapes.old.items item places.now }
    ensures shapes { OnOk result (AreShapes (bound_of bound.now) owners.now shapes.new.items) }
    ensures keeps { OnOk result (Keeps shapes.old.items shapes.new.items) }
    ensures place { IfOk result (IsPlace (bound_of bound.now) shapes.new.items item) }
{
    if free_site(bound, item).is_none() {
        return Ok(None);
    }
    if begins_chain(bound, item) {
        let sites = chain_sites(alloc, bound, item)?;
        let level = sites.len() - 1;
        let shape = kept_shape(alloc, bound, owners, shapes, sites)?;
        return Ok(Some(LevelAt { shape, level }));
    }
    Ok(next_place(places[item - 1]))
}

// The messages of an item's chain.
fn messages_at(shapes: &[Shape], place: Option<LevelAt>) -> u64
    requires { IfSome place (λ at. at.shape < length shapes.now) }
    ensures { IfSome place (λ at. (s : TheShape) → result ≡ (slice_index_or shapes.now at.shape s).messages) }
{
    match place {
        Some(at) => shapes[at.shape].messages,
        None => 0,
    }
}

/// The slices of a program's chains on the ranks of these owners. The time goes by the elements and the arguments of
/// the loops of the chains with different loops, whatever the number of ranks is, and by the items.
///
/// # Errors
/// Want of memory alone.
pub fn slices(alloc: Global, bound: &Bound, owners: &Owners) -> Result<Slices, OutOfMemory>
    requires fits { Fits (bound_of bound.now) }
    requires owners { AreOwners (bound_of bound.now).mesh owners.now }
    ensures { IfOk result (AreSlices (bound_of bound.now) owners.now) }
{
    let mut shapes = Vec::new(alloc);
    let mut places = Vec::new(alloc);
    let mut messages = 0;
    for item in 0..bound.trace.len() {
        let place = place_of(alloc, bound, owners, item, &places, &mut shapes)?;
        if begins_chain(bound, item) {
            messages += messages_at(&shapes, place);
        }
        places.push(place)?;
    }
    Ok(Slices {
        places,
        shapes,
        chains: chain_count(bound),
        messages,
    })
}

// Coordinates as integers.
ghost use Rattle.std.specs.Prelude.{◌≡◌, ◌<◌, ◌++◌, []};
ghost use Rattle.op_num.specs.Automaton.{Answers, onto};
ghost use Rattle.gmsh_mesh.specs.declared.refusal.GmshRefusal.TheVariants.{OutOfMemory};
ghost use Rattle.gmsh_mesh.specs.Coordinates.{coordinate, plane_word, place, places_behind, IsPlaced};

use crate::choice::Dimension;
use crate::refusal::GmshRefusal;
use gmsh_text::Point;
use gmsh_text::decimals::{largest_scale, read_scaled};
use op_num::texts::Token;
use std::alloc::Global;

// The coordinates of all nodes, node for node, each the integer nearest to the decimal times the scale. In a plane mesh
// the third is checked to be 0, and left out.
pub(crate) fn coordinates(
    alloc: Global,
    points: &[Point<'_>],
    dim: Dimension,
    scale: u32,
) -> Result<Vec<i32>, GmshRefusal>
    requires { 0 < scale }
    ensures { Answers OutOfMemory result (λ all. all.items) (places_behind dim scale [] points.now) }
{
    let mut all = Vec::with_capacity(alloc, points.len())?;
    for at in 0..points.len() {
        push_point(&mut all, &points[at], dim, scale)?;
    }
    Ok(all)
}

// The coordinates of one node more.
#[tactic(auto, unfolding(crate::specs::Coordinates::place))]
fn push_point(
    all: &mut Vec<i32>,
    point: &Point<'_>,
    dim: Dimension,
    scale: u32,
) -> Result<(), GmshRefusal>
    requires { 0 < scale }
    ensures { IsPlaced result all.new.items (onto (place dim scale point.now) (λ xs. all.old.items ++ xs)) }
{
    let x = scaled(&point.x, scale)?;
    let y = scaled(&point.y, scale)?;
    match dim {
        Dimension::Two => {
            check_plane(&point.z, scale)?;
            all.push(x)?;
            all.push(y)?;
        }
        Dimension::Three => {
            let z = scaled(&point.z, scale)?;
            all.push(x)?;
            all.push(y)?;
            all.push(z)?;
        }
    }
    Ok(())
}

// A coordinate.
fn scaled(token: &Token<'_>, scale: u32) -> Result<i32, GmshRefusal>
    requires { 0 < scale }
    ensures { result ≡ coordinate scale token.now }
{
    match read_scaled(token.text(), scale) {
        Ok(value) => Ok(value),
        Err(_) => Err(GmshRefusal::Coordinate {
            line: token.line(),
            largest: largest_scale(token.text()),
        }),
    }
}

// Whether the third coordinate of a plane mesh is 0.
fn check_plane(token: &Token<'_>, scale: u32) -> Result<(), GmshRefusal>
    requires { 0 < scale }
    ensures { result ≡ plane_word scale token.now }
{
    match read_scaled(token.text(), scale) {
        Ok(0) => Ok(()),
        _ => Err(GmshRefusal::NotPlane { line: token.line() }),
    }
}

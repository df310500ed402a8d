// The text of the graph.
ghost use Rattle.std.specs.Prelude.{◌≡◌, ◌+◌, ◌<◌, IfOk};
ghost use Rattle.mesh_decl.specs.Mesh.{map_count, set_size, map_to};
ghost use Rattle.renumber.specs.Neighbours.{IsInverse};
ghost use Rattle.metis_text.specs.Graph.{IsGraph};
ghost use Rattle.metis_text.specs.Parts.{HasLines};

use crate::neighbour_graph::lines::put_line;
use crate::neighbour_graph::neighbours::next_row;
use mesh_decl::Mesh;
use op_num::{OutOfMemory, put_u64};
use renumber::breadth_order::inverse;
use renumber::rows::Rows;
use std::alloc::{AllocError, Global};

// Appends the lines of all elements; how many neighbours they have. An error is want of memory, also where these can't
// be counted in 64 bits.
fn put_lines(
    alloc: Global,
    out: &mut Vec<u8>,
    mesh: &Mesh,
    map: u32,
    by: &Rows,
) -> Result<u64, OutOfMemory>
    requires map { map < map_count mesh.now }
    requires by { IsInverse mesh.now map by.now }
    ensures { IfOk result (λ total. HasLines mesh.now map (set_size mesh.now (map_to mesh.now map)) out.old.items out.new.items total) }
{
    mesh.is_in_range();
    let (_, to, _) = mesh.map_ends(map);
    let size = mesh.set_size(to);
    let seen = vec![in alloc; false; size as usize]?;
    let mut found = Vec::new(alloc);
    let mut total = 0u64;
    for element in 0..size {
        next_row(&mut found, mesh, map, by, element, &seen)?;
        put_line(out, &found)?;
        total = sum(total, found.len() as u64)?;
    }
    Ok(total)
}

// The sum of two counts.
fn sum(a: u64, b: u64) -> Result<u64, OutOfMemory>
    ensures { IfOk result (λ s. s ≡ a + b) }
{
    match a.checked_add(b) {
        Some(sum) => Ok(sum),
        None => Err(AllocError),
    }
}

/// The graph of the set to which the map numbered `map` leads, in METIS's format: a line with how many elements there
/// are and how many pairs of neighbours, and then for each element a line with its neighbours, numbered from 1 on. Two
/// elements are neighbours where one element has both as targets.
///
/// It takes time n log n in the pairs of targets of one element. An error is want of memory, also where neighbours
/// can't be counted in 64 bits.
pub fn write_graph(alloc: Global, mesh: &Mesh, map: u32) -> Result<Vec<u8>, OutOfMemory>
    requires { map < map_count mesh.now }
    ensures { IfOk result (λ v. IsGraph mesh.now map v.items) }
{
    mesh.is_in_range();
    let by = inverse(alloc, mesh, map)?;
    let mut lines = Vec::new(alloc);
    let total = put_lines(alloc, &mut lines, mesh, map, &by)?;
    let (_, to, _) = mesh.map_ends(map);
    let mut text = Vec::new(alloc);
    put_u64(&mut text, mesh.set_size(to) as u64)?;
    text.extend_from_slice(b" ")?;
    put_u64(&mut text, total / 2)?;
    text.extend_from_slice(b"\n")?;
    text.extend_from_slice(&lines)?;
    Ok(text)
}

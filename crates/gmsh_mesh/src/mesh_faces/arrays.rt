// Arrays of faces.
ghost use Rattle.std.specs.Prelude.{◌≡◌, ◌+◌, ◌*◌, ◌++◌, ◌<◌, ◌≤◌, ◌^◌, ℕ, pos, map, IfOk, OnOk, length, slice_index};
ghost use Rattle.gmsh_mesh.specs.Arrays.{rows_of, cells_of, pair_of, pairs_of};

use std::alloc::{AllocError, Global};

/// Numbers below 2147483648 as values of a mesh text. It fails only for want of memory.
pub fn as_values(alloc: Global, numbers: &[u32]) -> Result<Vec<i32>, AllocError>
    requires { (i : ℕ) → i < length numbers.now → slice_index numbers.now i < 2 ^ 31 }
    ensures { IfOk result (λ values. values.items ≡ map pos numbers.now) }
{
    let mut values = Vec::with_capacity(alloc, numbers.len())?;
    for at in 0..numbers.len() {
        values.push(numbers[at] as i32)?;
    }
    Ok(values)
}

/// The rows at these places, one behind another: `rows` has rows of `width` numbers, and places are from 0. It fails
/// only for want of memory.
pub fn rows_at(
    alloc: Global,
    rows: &[u32],
    width: usize,
    places: &[u32],
) -> Result<Vec<u32>, AllocError>
    requires width { width < 2 ^ 4 }
    requires within { (k : ℕ) → k < length places.now → slice_index places.now k * width + width ≤ length rows.now }
    ensures { IfOk result (λ all. all.items ≡ rows_of rows.now width places.now) }
{
    let mut all = Vec::new(alloc);
    for at in 0..places.len() {
        let start = places[at] as usize * width;
        all.extend_from_slice(&rows[start..start + width])?;
    }
    Ok(all)
}

/// The cells of the sides at these places, where each cell has so many sides. It fails only for want of memory.
pub fn cells_at(alloc: Global, places: &[u32], sides: u32) -> Result<Vec<u32>, AllocError>
    requires { 0 < sides }
    ensures { IfOk result (λ cells. cells.items ≡ cells_of sides places.now) }
{
    let mut cells = Vec::with_capacity(alloc, places.len())?;
    for at in 0..places.len() {
        cells.push(places[at] / sides)?;
    }
    Ok(cells)
}

/// For each of these sides its cell and the cell of its mate, where each cell has so many sides. It fails only for want
/// of memory.
pub fn both_cells(
    alloc: Global,
    places: &[u32],
    mates: &[u32],
    sides: u32,
) -> Result<Vec<u32>, AllocError>
    requires some { 0 < sides }
    requires within { (k : ℕ) → k < length places.now → slice_index places.now k < length mates.now }
    ensures { IfOk result (λ cells. cells.items ≡ pairs_of mates.now sides places.now) }
{
    let mut cells = Vec::new(alloc);
    for at in 0..places.len() {
        push_pair(&mut cells, places[at], mates, sides)?;
    }
    Ok(cells)
}

// The cell of a side, and the cell of its mate.
fn push_pair(cells: &mut Vec<u32>, place: u32, mates: &[u32], sides: u32) -> Result<(), AllocError>
    requires some { 0 < sides }
    requires within { place < length mates.now }
    ensures { OnOk result (cells.new.items ≡ cells.old.items ++ pair_of mates.now sides place) }
{
    cells.push(place / sides)?;
    cells.push(mates[place as usize] / sides)?;
    Ok(())
}

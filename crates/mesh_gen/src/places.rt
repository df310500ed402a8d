// The numbers of nodes and cells, and what an array of the mesh says at a place of the grid.
ghost use Rattle.std.specs.Prelude.{◌≡◌, ◌+◌, ◌<◌, ◌≤◌, ◌++◌, map, OnOk};
ghost use Rattle.std.specs.List.{flat_map};
ghost use Rattle.mesh_gen.specs.Grid.{node_at, cell_at, below, in_rows};
ghost use Rattle.mesh_gen.specs.Places.{at, cell_along};

use op_num::OutOfMemory;

/// The most cells along a side of the grid.
pub const MAX_SIDE: u32 = 200;

/// An array that goes over the grid, row by row.
#[derive(Clone, Copy, Debug, PartialEq, Eq)]
pub enum Pattern {
    /// At a cell, the four nodes around it.
    AroundCell,
    /// At a cell, it and the next one of its row.
    Beside,
    /// At a cell, it and the one in the next row.
    Above,
    /// At a node, its column and its row.
    Coordinates,
    /// At a cell, the sum of its column and its row.
    Sum,
}

/// A side of the grid.
#[derive(Clone, Copy, Debug, PartialEq, Eq)]
pub enum Side {
    Bottom,
    Top,
    Left,
    Right,
}

// The number of a node, by its column and its row.
#[tactic(auto, using(crate::proofs::Bounds::product_fits))]
fn node(n: u32, i: u32, j: u32) -> i32
    requires size { n ≤ MAX_SIDE }
    requires column { i ≤ n + 1 }
    requires row { j ≤ n + 1 }
    ensures { result ≡ node_at n i j }
{
    (j * (n + 1) + i) as i32
}

// The number of a cell, by its column and its row.
#[tactic(auto, using(crate::proofs::Bounds::product_fits))]
fn cell(n: u32, i: u32, j: u32) -> i32
    requires size { n ≤ MAX_SIDE }
    requires column { i ≤ n + 1 }
    requires row { j ≤ n + 1 }
    ensures { result ≡ cell_at n i j }
{
    (j * n + i) as i32
}

fn put_place(
    values: &mut Vec<i32>,
    pattern: Pattern,
    n: u32,
    i: u32,
    j: u32,
) -> Result<(), OutOfMemory>
    requires size { n ≤ MAX_SIDE }
    requires column { i ≤ n }
    requires row { j ≤ n }
    ensures { OnOk result (values.new.items ≡ values.old.items ++ at pattern n i j) }
{
    match pattern {
        Pattern::AroundCell => values.extend_from_slice(&[
            node(n, i, j),
            node(n, i + 1, j),
            node(n, i + 1, j + 1),
            node(n, i, j + 1),
        ]),
        Pattern::Beside => values.extend_from_slice(&[cell(n, i, j), cell(n, i + 1, j)]),
        Pattern::Above => values.extend_from_slice(&[cell(n, i, j), cell(n, i, j + 1)]),
        Pattern::Coordinates => values.extend_from_slice(&[i as i32, j as i32]),
        Pattern::Sum => values.extend_from_slice(&[(i + j) as i32]),
    }
}

// What the array says at the first places of a row.
fn put_row(
    values: &mut Vec<i32>,
    pattern: Pattern,
    n: u32,
    columns: u32,
    j: u32,
) -> Result<(), OutOfMemory>
    requires size { n ≤ MAX_SIDE }
    requires columns { columns ≤ n + 1 }
    requires row { j ≤ n }
    ensures { OnOk result (values.new.items ≡ values.old.items ++ flat_map (λ i. at pattern n i j) (below columns)) }
{
    for i in 0..columns {
        put_place(values, pattern, n, i, j)?;
    }
    Ok(())
}

/// What the array says at the first places of the first rows.
pub fn put_rows(
    values: &mut Vec<i32>,
    pattern: Pattern,
    n: u32,
    columns: u32,
    rows: u32,
) -> Result<(), OutOfMemory>
    requires size { n ≤ MAX_SIDE }
    requires columns { columns ≤ n + 1 }
    requires rows { rows ≤ n + 1 }
    ensures { OnOk result (values.new.items ≡ values.old.items ++ in_rows columns rows (at pattern n)) }
{
    for j in 0..rows {
        put_row(values, pattern, n, columns, j)?;
    }
    Ok(())
}

// The cell at place k of a side.
fn side_cell(n: u32, side: Side, k: u32) -> i32
    requires some { 0 < n }
    requires size { n ≤ MAX_SIDE }
    requires place { k < n }
    ensures { result ≡ cell_along side n k }
{
    match side {
        Side::Bottom => cell(n, k, 0),
        Side::Top => cell(n, k, n - 1),
        Side::Left => cell(n, 0, k),
        Side::Right => cell(n, n - 1, k),
    }
}

/// The cells along a side.
pub fn put_side(values: &mut Vec<i32>, side: Side, n: u32) -> Result<(), OutOfMemory>
    requires some { 0 < n }
    requires size { n ≤ MAX_SIDE }
    ensures { OnOk result (values.new.items ≡ values.old.items ++ map (cell_along side n) (below n)) }
{
    for k in 0..n {
        values.push(side_cell(n, side, k))?;
    }
    Ok(())
}

// Where dats and variables begin in a block.

ghost use Rattle.std.specs.Prelude.{◌≡◌, ◌<◌, ◌^◌, IfOk, length};
ghost use Rattle.mesh_decl.specs.Mesh.{dat_count};
ghost use Rattle.bound_program.specs.Values.{bound_of};
ghost use Rattle.run_model.specs.Memory.{first_memory, memory_length};
ghost use Rattle.deep_halo.specs.Layouts.{AreDatStarts, IsLayout};

use bound_program::Bound;
use op_num::OutOfMemory;
use run_model::gather::host_acts::variable_starts;
use std::alloc::Global;

/// Where cells stand in a block: the dats in order, element by element, and then the variables.
#[derive(Drop)]
pub struct Layout {
    /// Where each dat begins.
    pub dats: Vec<usize>,
    /// Where each variable begins behind the dats.
    pub vars: Vec<usize>,
    /// How many cells the dats have.
    pub dats_end: usize,
    /// How many cells there are.
    pub cells: usize,
}

/// The first values of all cells, as they stand in a block.
///
/// # Errors
/// Want of memory alone.
pub fn first_block(alloc: Global, bound: &Bound) -> Result<Vec<i32>, OutOfMemory>
    ensures first { IfOk result (λ v. v.items ≡ first_memory (bound_of bound.now)) }
    ensures count { IfOk result (λ v. length v.items ≡ memory_length (bound_of bound.now)) }
{
    bound.mesh.is_in_range();
    run_model::memory_holds();
    let mut block = Vec::new(alloc);
    for dat in 0..bound.mesh.dat_count() {
        block.extend_from_slice(bound.mesh.dat_values(dat))?;
    }
    for var in &bound.vars {
        block.extend_from_slice(var.start.as_slice())?;
    }
    Ok(block)
}

// Where each dat begins, and where the last ends.
fn dat_starts(alloc: Global, bound: &Bound) -> Result<(Vec<usize>, usize), OutOfMemory>
    requires few { memory_length (bound_of bound.now) < 2 ^ 64 }
    ensures { IfOk result (λ r. AreDatStarts (bound_of bound.now) (dat_count (bound_of bound.now).mesh) r.0.items r.1) }
{
    bound.mesh.is_in_range();
    run_model::memory_holds();
    let mut starts = Vec::new(alloc);
    let mut next = 0;
    for dat in 0..bound.mesh.dat_count() {
        starts.push(next)?;
        next += bound.mesh.dat_values(dat).len();
    }
    Ok((starts, next))
}

/// Where cells stand in a block, which has so many.
///
/// # Errors
/// Want of memory alone.
pub fn layout_of(alloc: Global, bound: &Bound, cells: usize) -> Result<Layout, OutOfMemory>
    requires cells { cells ≡ memory_length (bound_of bound.now) }
    ensures { IfOk result (IsLayout (bound_of bound.now)) }
{
    let (dats, dats_end) = dat_starts(alloc, bound)?;
    let vars = variable_starts(alloc, &bound.vars)?;
    Ok(Layout {
        dats,
        vars,
        dats_end,
        cells,
    })
}

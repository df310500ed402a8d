// The text for VTK.
ghost use Rattle.std.specs.Prelude.{◌≡◌, ◌+◌, ◌<◌, ◌^◌, ◌++◌, codes, length, option_map, IfOk, IfErr, IfSome};
ghost use Rattle.bound_program.specs.Values.{bound_of};
ghost use Rattle.bound_program.specs.Fits.{Fits};
ghost use Rattle.cell_numbers.specs.Numbers.{shown_text};
ghost use Rattle.mesh_draw.specs.Drawn.{array_name, AreRunFields, AreUntold, IsGrid, IsNoGrid};

use crate::fields::fields_of;
use crate::shapes::shape_of;
use crate::types::DrawRefusal;
use crate::vtk_texts::{Field, GridData, vtk_text};
use bound_program::Bound;
use cell_numbers::{Shown, numbers_of, put_shown};
use loop_plan::planned_program::Planned;
use op_num::OutOfMemory;
use std::alloc::Global;

// The title.
fn title_of(alloc: Global, shown: Shown) -> Result<Vec<u8>, OutOfMemory>
    ensures { IfOk result (λ v. v.items ≡ codes "op2 cells" ++ shown_text shown) }
{
    let mut title = Vec::from_slice(alloc, b"op2 cells")?;
    put_shown(&mut title, shown)?;
    Ok(title)
}

// The name of the array of the cells' numbers.
fn array_name(shown: Shown) -> &'static [u8]
    ensures { result.now ≡ array_name shown }
{
    match shown {
        Shown::Owners => b"op2-owner",
        Shown::Halos { .. } => b"op2-halo",
        Shown::Colours { .. } => b"op2-colour",
    }
}

// The fields on a set by the output of a run, where there is one.
fn fields_on(
    alloc: Global,
    bound: &Bound,
    output: Option<&[u8]>,
    set: u32,
) -> Result<Vec<Field>, DrawRefusal>
    requires fits { Fits (bound_of bound.now) }
    requires output { IfSome output (λ bytes. length bytes.now + 1 < 2 ^ 32) }
    ensures ok { IfOk result (λ v. AreRunFields (bound_of bound.now) (option_map (λ bytes. bytes.now) output.entry) set v.items) }
    ensures err { IfErr result (AreUntold (bound_of bound.now) (option_map (λ bytes. bytes.now) output.entry) set) }
{
    match output {
        Some(output) => Ok(fields_of(alloc, bound, output, set)?),
        None => Ok(Vec::new(alloc)),
    }
}

/// The text for VTK of a mesh on ranks, in the plane or in space: its nodes, where the first dat named `coords` says
/// that they lie, its cells, which have the nodes that the first map named `cells` says, and the number of each of what
/// is shown, in an array named `op2-owner`, `op2-halo` or `op2-colour`. With the output of a run, of fewer than 2^32 -
/// 1 bytes, there is an array for each dat on the cells or the nodes that the program prints: what it printed last of
/// it.
///
/// # Errors
/// The first cause of [`DrawRefusal`] that is so, which is `Shape`, `Shown` or `Fields`; `Shown(OutOfMemory)` where
/// memory runs out.
pub fn vtk(
    alloc: Global,
    planned: &Planned<'_>,
    coords: &[u8],
    cells: &[u8],
    shown: Shown,
    output: Option<&[u8]>,
) -> Result<Vec<u8>, DrawRefusal>
    requires { IfSome output (λ bytes. length bytes.now + 1 < 2 ^ 32) }
    ensures ok { IfOk result (λ v. IsGrid (bound_of planned.now.bound) planned.now.distribution planned.now.plan
        coords.now cells.now shown (option_map (λ bytes. bytes.now) output.entry) v.items) }
    ensures err { IfErr result (IsNoGrid (bound_of planned.now.bound) planned.now.distribution planned.now.plan
        coords.now cells.now shown (option_map (λ bytes. bytes.now) output.entry)) }
{
    let bound = planned.bound;
    let shape = shape_of(&bound.mesh, coords, cells)?;
    bound.mesh.is_in_range();
    let (set, _, _) = bound.mesh.map_ends(shape.cells);
    let numbers = numbers_of(alloc, planned, set, shown)?;
    let (nodes, _) = bound.mesh.dat_shape(shape.coords);
    let on_cells = fields_on(alloc, bound, output, set)?;
    let on_nodes = fields_on(alloc, bound, output, nodes)?;
    let title = title_of(alloc, shown)?;
    let data = GridData {
        title: &title,
        name: array_name(shown),
        numbers: &numbers,
        on_cells: &on_cells,
        on_nodes: &on_nodes,
    };
    Ok(vtk_text(alloc, &bound.mesh, shape, data)?)
}

// The entries of the mesh text.
ghost use Rattle.std.specs.Prelude.{◌≡◌, ◌<◌, ◌≤◌, ◌++◌, [], ◌∷◌, false, OnOk, IfOk};
ghost use Rattle.mesh_decl.specs.Spelling.{has_name};
ghost use Rattle.mesh_gen.specs.Sample.{sizes, maps, mesh_entries};

use crate::arrays::{
    boundary_cells, cell_nodes, cell_sums, cell_zeros, edge_cells, node_coordinates, wall_values,
};
use crate::places::MAX_SIDE;
use mesh_decl::text::{Entries, Entry};
use op_num::{Name, OutOfMemory};
use std::alloc::Global;

/// The entries of the mesh of the grid, in their order.
pub fn grid_entries(alloc: Global, n: u32) -> Result<Entries, OutOfMemory>
    requires some { 0 < n }
    requires size { n ≤ MAX_SIDE }
    ensures { IfOk result (λ m. m.entries ≡ mesh_entries n) }
{
    let mut entries = Entries::new(alloc);
    put_sizes(alloc, &mut entries, n)?;
    put_maps(alloc, &mut entries, n)?;
    put_data(alloc, &mut entries, n)?;
    Ok(entries)
}

// Adds an entry with a new name at the end.
fn put(alloc: Global, entries: &mut Entries, name: &str, entry: Entry) -> Result<(), OutOfMemory>
    requires { has_name name.now entries.old.entries ≡ false }
    ensures { OnOk result (entries.new.entries ≡ entries.old.entries ++ (name.now, entry) ∷ []) }
{
    let name = Name::new(Vec::from_slice(alloc, name.as_bytes())?);
    entries.insert(name, entry)?;
    Ok(())
}

#[tactic(auto, using(crate::proofs::Bounds::product_fits))]
fn put_sizes(alloc: Global, entries: &mut Entries, n: u32) -> Result<(), OutOfMemory>
    requires some { 0 < n }
    requires size { n ≤ MAX_SIDE }
    requires first { entries.old.entries ≡ [] }
    ensures { OnOk result (entries.new.entries ≡ sizes n) }
{
    put(
        alloc,
        entries,
        "nnode",
        Entry::One(((n + 1) * (n + 1)) as i32),
    )?;
    put(alloc, entries, "ncell", Entry::One((n * n) as i32))?;
    put(
        alloc,
        entries,
        "nedge",
        Entry::One((2 * n * (n - 1)) as i32),
    )?;
    put(alloc, entries, "nbedge", Entry::One((4 * n) as i32))
}

fn put_maps(alloc: Global, entries: &mut Entries, n: u32) -> Result<(), OutOfMemory>
    requires some { 0 < n }
    requires size { n ≤ MAX_SIDE }
    requires behind { entries.old.entries ≡ sizes n }
    ensures { OnOk result (entries.new.entries ≡ sizes n ++ maps n) }
{
    put(alloc, entries, "cell", Entry::Many(cell_nodes(alloc, n)?))?;
    put(alloc, entries, "ecell", Entry::Many(edge_cells(alloc, n)?))?;
    put(
        alloc,
        entries,
        "bcell",
        Entry::Many(boundary_cells(alloc, n)?),
    )
}

#[tactic(auto, unfolding(crate::specs::Sample::mesh_entries))]
fn put_data(alloc: Global, entries: &mut Entries, n: u32) -> Result<(), OutOfMemory>
    requires some { 0 < n }
    requires size { n ≤ MAX_SIDE }
    requires behind { entries.old.entries ≡ sizes n ++ maps n }
    ensures { OnOk result (entries.new.entries ≡ mesh_entries n) }
{
    put(alloc, entries, "wall0", Entry::Many(wall_values(alloc, n)?))?;
    put(
        alloc,
        entries,
        "x0",
        Entry::Many(node_coordinates(alloc, n)?),
    )?;
    put(alloc, entries, "q0", Entry::Many(cell_sums(alloc, n)?))?;
    put(alloc, entries, "zero", Entry::Many(cell_zeros(alloc, n)?))
}

// From the bytes of a Gmsh file to a mesh text and a program for it.
ghost use Rattle.std.specs.Prelude.{◌≡◌, ◌+◌, ◌<◌, ◌≤◌, ◌^◌, ◌++◌, ◌∷◌, [], false, Ok, IfOk, OnOk, length, map, pos};
ghost use Rattle.mesh_decl.specs.declared.text.entry.TheConstants.{MESH_BYTES, MESH_VALUES};
ghost use Rattle.mesh_decl.specs.declared.text.entry.Form.TheVariants.{Two};
ghost use Rattle.mesh_decl.specs.declared.text.entry.Entry.TheVariants.{Many};
ghost use Rattle.mesh_decl.specs.Canonical.{canonical};
ghost use Rattle.mesh_decl.specs.Spelling.{Spells, has_name, total};
ghost use Rattle.gmsh_text.specs.Whole.{AreWhole};
ghost use Rattle.gmsh_mesh.specs.Stages.{Gives};
ghost use Rattle.gmsh_mesh.specs.Mesh.{Arrays};
ghost use Rattle.gmsh_mesh.specs.Entries.{entries as entries_of_arrays, size_entries};
ghost use Rattle.gmsh_mesh.specs.Outcome.{ArraysAre, Comes, written};
ghost use Rattle.gmsh_mesh.specs.Small.{AreSmall, HasSmall};

use crate::choice::{Dimension, choose_dimension};
use crate::mesh::{Mesh, build_mesh};
use crate::mesh_faces::as_values;
use crate::refusal::GmshRefusal;
use crate::source::mesh_source;
use gmsh_text::{elements_are_whole, read_gmsh};
use mesh_decl::text::{Entries, Entry, Form, MESH_BYTES, MESH_VALUES, Values, write_mesh};
use op_num::{Name, OutOfMemory};
use std::alloc::Global;

/// A mesh text, and a program for it.
#[derive(Debug, Drop)]
pub struct Conversion {
    /// The canonical mesh text, in version 2.
    pub mesh: Vec<u8>,
    /// A program that declares all sets, maps and dats of the mesh, and prints sums.
    pub source: &'static str,
}

/// The mesh text of a Gmsh file of version 2.2 or 4.1, ASCII, and a program for it.
///
/// Its entries are `nnode`, `ncell`, `nface` and `nbface`, how many nodes, cells, faces between two cells and faces of
/// one cell; `x`, the coordinates of each node, each the integer nearest to the decimal times `scale`, ties away from
/// zero; `cell`, the nodes of each cell; `face` and `fcell`, the nodes and the two cells of each face between cells;
/// `bface`, `bcell` and `btag`, the nodes, the cell and the physical tag, or 0, of each face of the boundary. Nodes and
/// cells stand in the order of the file, faces in the order of their first cells and of these cells' sides, and a
/// face's nodes as they run round it in its first cell. `dim` says whether the mesh is plane; without it the mesh has
/// three dimensions where the file has tetrahedra or hexahedra. `scale` is not 0, and `bytes` are fewer than 2^32 - 1.
///
/// Each refusal of [`GmshRefusal`] comes exactly where it says. Judged are, one after another: the form of the text,
/// token by token; whether there are cells; how many values come before the faces; the nodes and then the elements,
/// each line by line; the faces; the boundary; how many values and how many bytes the mesh has.
pub fn from_gmsh(
    alloc: Global,
    bytes: &[u8],
    dim: Option<Dimension>,
    scale: u32,
) -> Result<Conversion, GmshRefusal>
    requires scale { 0 < scale }
    requires lines { length bytes.now + 1 < 2 ^ 32 }
    // What the bytes come to is given.
    ensures comes { Gives result (λ c. record { mesh = c.mesh.items; source = c.source.now }) (Comes bytes.now dim scale) }
    // The text spells the entries of the mesh, within the limit, so `read_mesh` gives these.
    ensures spells { IfOk result (λ c. (m : Arrays) × ArraysAre bytes.now dim scale (Ok m)
        × Spells c.mesh.items (entries_of_arrays m) × (total (entries_of_arrays m) ≤ MESH_VALUES)) }
    // Both texts are no longer than those of files that are read.
    ensures short { IfOk result (λ c. (length c.mesh.items ≤ MESH_BYTES) × (length c.source.now < 2 ^ 16)) }
{
    let mesh = read_arrays(alloc, bytes, dim, scale)?;
    let shape = mesh.shape;
    let size = value_count(&mesh);
    if size > MESH_VALUES {
        return Err(GmshRefusal::Limit { size });
    }
    let text = mesh_bytes(alloc, mesh)?;
    let size = text.len() as u64;
    if size > MESH_BYTES {
        return Err(GmshRefusal::Bytes { size });
    }
    Ok(Conversion {
        mesh: text,
        source: mesh_source(shape),
    })
}

// The mesh that the bytes spell.
fn read_arrays(
    alloc: Global,
    bytes: &[u8],
    dim: Option<Dimension>,
    scale: u32,
) -> Result<Mesh, GmshRefusal>
    requires scale { 0 < scale }
    requires lines { length bytes.now + 1 < 2 ^ 32 }
    ensures arrays { Gives result (λ m. m) (ArraysAre bytes.now dim scale) }
    ensures small { IfOk result HasSmall }
{
    elements_are_whole();
    let text = read_gmsh(alloc, bytes)?;
    let dim = choose_dimension(dim, &text.elements);
    build_mesh(alloc, &text, dim, scale)
}

// How many values the mesh text has.
fn value_count(mesh: &Mesh) -> u64
    ensures { result ≡ total (entries_of_arrays mesh.now) }
{
    let cells = mesh.x.as_slice().len() as u64 + mesh.cell.as_slice().len() as u64;
    let inner = mesh.faces.face.as_slice().len() as u64 + mesh.faces.fcell.as_slice().len() as u64;
    let outer = mesh.faces.bface.as_slice().len() as u64 + mesh.faces.bcell.as_slice().len() as u64;
    4 + cells + inner + outer + mesh.btag.as_slice().len() as u64
}

// The mesh text.
fn mesh_bytes(alloc: Global, mesh: Mesh) -> Result<Vec<u8>, OutOfMemory>
    requires small { HasSmall mesh }
    requires within { total (entries_of_arrays mesh) ≤ MESH_VALUES }
    requires dim { 0 < mesh.dim }
    ensures text { IfOk result (λ v. v.items ≡ canonical Two (entries_of_arrays mesh)) }
    ensures spells { IfOk result (λ v. Spells v.items (entries_of_arrays mesh)) }
{
    let mut entries = Entries::new(alloc);
    put_sizes(alloc, &mut entries, &mesh)?;
    put_arrays(alloc, &mut entries, mesh)?;
    write_mesh(alloc, &entries, Form::Two)
}

// Adds an entry with a new name at the end.
fn put(alloc: Global, entries: &mut Entries, name: &str, entry: Entry) -> Result<(), OutOfMemory>
    requires { has_name name.now entries.old.entries ≡ false }
    ensures { OnOk result (entries.new.entries ≡ entries.old.entries ++ (name.now, entry) ∷ []) }
{
    let name = Name::new(Vec::from_slice(alloc, name.as_bytes())?);
    entries.insert(name, entry)?;
    Ok(())
}

// How many there are of each set.
fn put_sizes(alloc: Global, entries: &mut Entries, mesh: &Mesh) -> Result<(), OutOfMemory>
    requires first { entries.old.entries ≡ [] }
    requires within { total (entries_of_arrays mesh.now) ≤ MESH_VALUES }
    requires dim { 0 < mesh.now.dim }
    ensures { OnOk result (entries.new.entries ≡ size_entries mesh.now) }
{
    let nodes = mesh.x.len() / mesh.dim;
    let cells = mesh.cell.len() / mesh.shape.nodes();
    let faces = mesh.faces.fcell.len() / 2;
    put(alloc, entries, "nnode", Entry::One(nodes as i32))?;
    put(alloc, entries, "ncell", Entry::One(cells as i32))?;
    put(alloc, entries, "nface", Entry::One(faces as i32))?;
    put(
        alloc,
        entries,
        "nbface",
        Entry::One(mesh.faces.bcell.len() as i32),
    )
}

// The values of an array of numbers.
fn values_of(alloc: Global, numbers: &[u32]) -> Result<Entry, OutOfMemory>
    requires { AreSmall numbers.now }
    ensures { IfOk result (λ e. e ≡ Many (map pos numbers.now)) }
{
    Ok(Entry::Many(Values::new(as_values(alloc, numbers)?)))
}

// The arrays.
fn put_arrays(alloc: Global, entries: &mut Entries, mesh: Mesh) -> Result<(), OutOfMemory>
    requires behind { entries.old.entries ≡ size_entries mesh }
    requires small { HasSmall mesh }
    ensures { OnOk result (entries.new.entries ≡ entries_of_arrays mesh) }
{
    let faces = mesh.faces;
    put(alloc, entries, "x", Entry::Many(Values::new(mesh.x)))?;
    put(alloc, entries, "cell", values_of(alloc, &mesh.cell)?)?;
    put(alloc, entries, "face", values_of(alloc, &faces.face)?)?;
    put(alloc, entries, "fcell", values_of(alloc, &faces.fcell)?)?;
    put(alloc, entries, "bface", values_of(alloc, &faces.bface)?)?;
    put(alloc, entries, "bcell", values_of(alloc, &faces.bcell)?)?;
    put(alloc, entries, "btag", Entry::Many(Values::new(mesh.btag)))
}

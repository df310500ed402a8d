// The first lines of printed dats.
ghost use Rattle.std.specs.Prelude.{◌≡◌, ◌<◌, ◌++◌, codes, OnOk, IfOk};
ghost use Rattle.std.specs.Fmt.{decimal};
ghost use Rattle.mesh_decl.specs.Mesh.{dat_count, set_size, set_name, dat_set, dat_dim, dat_name};
ghost use Rattle.mesh_draw.specs.Pieces.{header};

use mesh_decl::Mesh;
use op_num::{OutOfMemory, put_u64};

// Appends the text that stands for the file, the dat and its set, each with what stands behind it.
fn put_names(out: &mut Vec<u8>, file: &[u8], mesh: &Mesh, dat: u32) -> Result<(), OutOfMemory>
    requires { dat < dat_count mesh.now }
    ensures { OnOk result (out.new.items
        ≡ out.old.items ++ file.now ++ codes ": " ++ dat_name mesh.now dat ++ codes " " ++ set_name mesh.now (dat_set mesh.now dat)
        ++ codes " ") }
{
    mesh.is_in_range();
    let (set, _) = mesh.dat_shape(dat);
    out.extend_from_slice(file)?;
    out.extend_from_slice(b": ")?;
    out.extend_from_slice(mesh.dat_name(dat).bytes())?;
    out.extend_from_slice(b" ")?;
    out.extend_from_slice(mesh.set_name(set).bytes())?;
    out.extend_from_slice(b" ")
}

// Appends the size and the dim.
fn put_numbers(out: &mut Vec<u8>, mesh: &Mesh, dat: u32) -> Result<(), OutOfMemory>
    requires { dat < dat_count mesh.now }
    ensures { OnOk result (out.new.items
        ≡ out.old.items ++ decimal (set_size mesh.now (dat_set mesh.now dat)) ++ codes " " ++ decimal (dat_dim mesh.now dat)
        ++ codes "\n") }
{
    mesh.is_in_range();
    let (set, dim) = mesh.dat_shape(dat);
    put_u64(out, mesh.set_size(set) as u64)?;
    out.extend_from_slice(b" ")?;
    put_u64(out, dim as u64)?;
    out.extend_from_slice(b"\n")
}

/// Writes the first line of a printed dat in place of what `out` holds. An error is want of memory.
pub fn write_header(
    out: &mut Vec<u8>,
    file: &[u8],
    mesh: &Mesh,
    dat: u32,
) -> Result<(), OutOfMemory>
    requires { dat < dat_count mesh.now }
    ensures { OnOk result (out.new.items ≡ header file.now mesh.now dat) }
{
    out.clear();
    put_names(out, file, mesh, dat)?;
    put_numbers(out, mesh, dat)
}

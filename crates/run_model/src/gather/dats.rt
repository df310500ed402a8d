// What is printed of a dat (`op_print_dat_to_txtfile` of the OP2 C API; the form of the text is this project's own).
ghost use Rattle.std.specs.Prelude.{◌≡◌, ◌<◌, ◌*◌, ◌++◌, ◌∷◌, [], length, codes, OnOk, OnErr, if◌then◌else◌};
ghost use Rattle.std.specs.List.{flat_map};
ghost use Rattle.std.specs.Fmt.{decimal};
ghost use Rattle.mesh_decl.specs.Mesh.{set_count, dat_count, dat_set, dat_dim, set_size, set_name, dat_name};
ghost use Rattle.mesh_decl.specs.Printed.{rows, row_text, dat_header, printed_dat};
ghost use Rattle.run_model.specs.Grows.{Grows};

use mesh_decl::Mesh;
use op_num::{OutOfMemory, Text, put_i32, put_u64};

/// Appends what `op_print_dat_to_txtfile` prints of the dat numbered `dat`: a line with the text `file`, the names of
/// dat and set, the set's size and the dat's dim; then for each element, by its original number, a line with its
/// values. `values` has the dat's values, `dim` for each element of its set.
///
/// Want of memory leaves `out` as it was.
pub fn print_dat(
    out: &mut Vec<u8>,
    file: &Text,
    mesh: &Mesh,
    dat: u32,
    values: &[i32],
) -> Result<(), OutOfMemory>
    requires dat { dat < dat_count mesh.now }
    requires values { length values.now ≡ set_size mesh.now (dat_set mesh.now dat) * dat_dim mesh.now dat }
    ensures ok { OnOk result (out.new.items ≡ out.old.items ++ printed_dat file.now mesh.now dat values.now) }
    ensures err { OnErr result (out.new.items ≡ out.old.items) }
{
    let before = out.len();
    let printed = put_dat(out, file, mesh, dat, values);
    if printed.is_err() {
        out.truncate(before);
    }
    printed
}

// The lines of a dat, or a front of them.
fn put_dat(
    out: &mut Vec<u8>,
    file: &Text,
    mesh: &Mesh,
    dat: u32,
    values: &[i32],
) -> Result<(), OutOfMemory>
    requires dat { dat < dat_count mesh.now }
    requires values { length values.now ≡ set_size mesh.now (dat_set mesh.now dat) * dat_dim mesh.now dat }
    ensures ok { OnOk result (out.new.items ≡ out.old.items ++ printed_dat file.now mesh.now dat values.now) }
    ensures grows { Grows out.old.items out.new.items }
{
    put_names(out, file, mesh, dat)?;
    put_numbers(out, mesh, dat)?;
    put_elements(out, mesh, dat, values)
}

// The file, the dat and its set, each with what stands behind it.
fn put_names(out: &mut Vec<u8>, file: &Text, mesh: &Mesh, dat: u32) -> Result<(), OutOfMemory>
    requires { dat < dat_count mesh.now }
    ensures ok { OnOk result (out.new.items
        ≡ out.old.items ++ file.now ++ codes ": " ++ dat_name mesh.now dat ++ codes " " ++ set_name mesh.now (dat_set mesh.now dat)
        ++ codes " ") }
    ensures grows { Grows out.old.items out.new.items }
{
    mesh.is_in_range();
    let (set, _) = mesh.dat_shape(dat);
    out.extend_from_slice(file.bytes())?;
    out.extend_from_slice(b": ")?;
    out.extend_from_slice(mesh.dat_name(dat).bytes())?;
    out.extend_from_slice(b" ")?;
    out.extend_from_slice(mesh.set_name(set).bytes())?;
    out.extend_from_slice(b" ")
}

// The size and the dim.
fn put_numbers(out: &mut Vec<u8>, mesh: &Mesh, dat: u32) -> Result<(), OutOfMemory>
    requires { dat < dat_count mesh.now }
    ensures ok { OnOk result (out.new.items
        ≡ out.old.items ++ decimal (set_size mesh.now (dat_set mesh.now dat)) ++ codes " " ++ decimal (dat_dim mesh.now dat)
        ++ codes "\n") }
    ensures grows { Grows out.old.items out.new.items }
{
    mesh.is_in_range();
    let (set, dim) = mesh.dat_shape(dat);
    let size = mesh.set_size(set);
    put_u64(out, size as u64)?;
    out.extend_from_slice(b" ")?;
    put_u64(out, dim as u64)?;
    out.extend_from_slice(b"\n")
}

// The lines of the elements of a dat.
fn put_elements(out: &mut Vec<u8>, mesh: &Mesh, dat: u32, values: &[i32]) -> Result<(), OutOfMemory>
    requires dat { dat < dat_count mesh.now }
    requires values { length values.now ≡ set_size mesh.now (dat_set mesh.now dat) * dat_dim mesh.now dat }
    ensures ok { OnOk result (out.new.items
        ≡ out.old.items ++ flat_map row_text (rows (dat_dim mesh.now dat) (set_size mesh.now (dat_set mesh.now dat)) values.now)) }
    ensures grows { Grows out.old.items out.new.items }
{
    mesh.is_in_range();
    let (set, dim) = mesh.dat_shape(dat);
    let size = mesh.set_size(set);
    put_rows(out, values, size, dim)
}

// The lines of so many elements.
fn put_rows(out: &mut Vec<u8>, values: &[i32], size: u32, dim: u32) -> Result<(), OutOfMemory>
    requires { length values.now ≡ size * dim }
    ensures ok { OnOk result (out.new.items ≡ out.old.items ++ flat_map row_text (rows dim size values.now)) }
    ensures grows { Grows out.old.items out.new.items }
{
    let mut rest = values;
    for _element in 0..size {
        let (row, more) = rest.split_at(dim as usize);
        put_row(out, row)?;
        rest = more;
    }
    Ok(())
}

// An element's values between single spaces, and LF.
fn put_row(out: &mut Vec<u8>, values: &[i32]) -> Result<(), OutOfMemory>
    ensures ok { OnOk result (out.new.items ≡ out.old.items ++ row_text values.now) }
    ensures grows { Grows out.old.items out.new.items }
{
    let mut rest = values;
    while let [first, more @ ..] = rest {
        put_i32(out, *first)?;
        put_separator(out, more.is_empty())?;
        rest = more;
    }
    Ok(())
}

// LF behind the last value of a line, else a space.
fn put_separator(out: &mut Vec<u8>, is_last: bool) -> Result<(), OutOfMemory>
    ensures ok { OnOk result (out.new.items ≡ out.old.items ++ (if is_last then 10 else 32) ∷ []) }
    ensures err { OnErr result (out.new.items ≡ out.old.items) }
{
    out.push(if is_last { b'\n' } else { b' ' })?;
    Ok(())
}

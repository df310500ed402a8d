// Data on the cells and on the nodes.
ghost use Rattle.std.specs.Prelude.{◌≡◌, ◌++◌, codes, OnOk};
ghost use Rattle.std.specs.List.{flat_map};
ghost use Rattle.std.specs.Fmt.{decimal};
ghost use Rattle.mesh_draw.specs.Text.{array_text, value_line, number_array, field_array, cell_data, node_data};

use crate::vtk_texts::field::Field;
use op_num::{OutOfMemory, put_u64};

// An array: its line, and the lines of its elements.
fn put_array(
    out: &mut Vec<u8>,
    name: &[u8],
    dim: u32,
    elements: u64,
    lines: &[u8],
) -> Result<(), OutOfMemory>
    ensures { OnOk result (out.new.items ≡ out.old.items ++ array_text name.now dim elements lines.now) }
{
    out.extend_from_slice(name)?;
    out.extend_from_slice(b" ")?;
    put_u64(out, dim as u64)?;
    out.extend_from_slice(b" ")?;
    put_u64(out, elements)?;
    out.extend_from_slice(b" int\n")?;
    out.extend_from_slice(lines)
}

// The line of a number.
fn put_value(out: &mut Vec<u8>, number: u32) -> Result<(), OutOfMemory>
    ensures { OnOk result (out.new.items ≡ out.old.items ++ value_line number) }
{
    put_u64(out, number as u64)?;
    out.extend_from_slice(b"\n")
}

// The lines of numbers.
fn put_values(out: &mut Vec<u8>, numbers: &[u32]) -> Result<(), OutOfMemory>
    ensures { OnOk result (out.new.items ≡ out.old.items ++ flat_map value_line numbers.now) }
{
    for number in numbers {
        put_value(out, *number)?;
    }
    Ok(())
}

// The array of one number for each cell.
fn put_numbers(out: &mut Vec<u8>, name: &[u8], numbers: &[u32]) -> Result<(), OutOfMemory>
    ensures { OnOk result (out.new.items ≡ out.old.items ++ number_array name.now numbers.now) }
{
    put_array(out, name, 1, numbers.len() as u64, b"")?;
    put_values(out, numbers)?;
    Ok(())
}

// The arrays of fields on so many elements.
fn put_fields(out: &mut Vec<u8>, elements: u64, fields: &[Field]) -> Result<(), OutOfMemory>
    ensures { OnOk result (out.new.items ≡ out.old.items ++ flat_map (field_array elements) fields.now) }
{
    for field in fields {
        put_array(
            out,
            field.name.bytes(),
            field.dim,
            elements,
            field.rows.bytes(),
        )?;
    }
    Ok(())
}

// The line of data on so many elements, and that of so many arrays.
fn put_data_head(
    out: &mut Vec<u8>,
    word: &[u8],
    elements: u64,
    arrays: u64,
) -> Result<(), OutOfMemory>
    ensures { OnOk result (out.new.items ≡ out.old.items
        ++ (word.now ++ decimal elements ++ codes "\nFIELD op2 " ++ decimal arrays ++ codes "\n")) }
{
    out.extend_from_slice(word)?;
    put_u64(out, elements)?;
    out.extend_from_slice(b"\nFIELD op2 ")?;
    put_u64(out, arrays)?;
    out.extend_from_slice(b"\n")
}

/// Appends the data of the cells: a number of each, in an array of this name, and fields.
pub fn put_cell_data(
    out: &mut Vec<u8>,
    name: &[u8],
    numbers: &[u32],
    fields: &[Field],
) -> Result<(), OutOfMemory>
    ensures { OnOk result (out.new.items ≡ out.old.items ++ cell_data name.now numbers.now fields.now) }
{
    let cells = numbers.len() as u64;
    put_data_head(out, b"CELL_DATA ", cells, fields.len() as u64 + 1)?;
    put_numbers(out, name, numbers)?;
    put_fields(out, cells, fields)?;
    Ok(())
}

/// Appends the data of so many nodes, where there are fields on them.
pub fn put_node_data(out: &mut Vec<u8>, nodes: u32, fields: &[Field]) -> Result<(), OutOfMemory>
    ensures { OnOk result (out.new.items ≡ out.old.items ++ node_data nodes fields.now) }
{
    if fields.is_empty() {
        return Ok(());
    }
    put_data_head(out, b"POINT_DATA ", nodes as u64, fields.len() as u64)?;
    put_fields(out, nodes as u64, fields)?;
    Ok(())
}

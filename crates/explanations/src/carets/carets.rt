// Carets under lines.
ghost use Rattle.std.specs.Prelude.{◌≡◌, ◌++◌, ◌-◌, take, OnOk};
ghost use Rattle.std.specs.List.{flat_map};
ghost use Rattle.explanations.specs.Carets.{under, marked};

use std::alloc::AllocError;

// What stands under a byte.
fn put_under(out: &mut Vec<u8>, byte: u8) -> Result<(), AllocError>
    ensures { OnOk result (out.new.items ≡ out.old.items ++ under byte) }
{
    if byte == b'\t' {
        out.extend_from_slice(b"\t")
    } else if byte >= 128 && byte < 192 {
        Ok(())
    } else {
        out.extend_from_slice(b" ")
    }
}

// What stands under bytes.
fn put_all_under(out: &mut Vec<u8>, bytes: &[u8]) -> Result<(), AllocError>
    ensures { OnOk result (out.new.items ≡ out.old.items ++ flat_map under bytes.now) }
{
    for byte in bytes {
        put_under(out, *byte)?;
    }
    Ok(())
}

/// Appends a line of a source, and a line with a caret under its byte in this column, which is counted in bytes from 1,
/// as compilers do. The caret stands where the byte is shown: a tab has a tab under it, and a character of several
/// bytes one blank. It stands behind the line's end where the line has no such byte. An error is want of memory.
pub fn put_marked(out: &mut Vec<u8>, line: &[u8], column: u64) -> Result<(), AllocError>
    ensures { OnOk result (out.new.items ≡ out.old.items ++ marked line.now column) }
{
    out.extend_from_slice(line)?;
    out.extend_from_slice(b"\n")?;
    let before = column.saturating_sub(1).min(line.len() as u64) as usize;
    put_all_under(out, &line[..before])?;
    out.extend_from_slice(b"^\n")
}

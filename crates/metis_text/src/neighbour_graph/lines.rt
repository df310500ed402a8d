// Lines of neighbours.
ghost use Rattle.std.specs.Prelude.{◌≡◌, ◌++◌, ◌∷◌, [], ◌<◌, ◌^◌, All, map, OnOk, if◌then◌else◌};
ghost use Rattle.op_num.specs.Lines.{line_of};
ghost use Rattle.metis_text.specs.Graph.{vertex, graph_line};

use op_num::{OutOfMemory, put_u64};

// LF behind the last of a line, else a space.
fn put_separator(out: &mut Vec<u8>, is_last: bool) -> Result<(), OutOfMemory>
    ensures { OnOk result (out.new.items ≡ out.old.items ++ (if is_last then 10 else 32) ∷ []) }
{
    out.push(if is_last { b'\n' } else { b' ' })?;
    Ok(())
}

// Elements between single spaces, and LF; nothing where there are none.
fn put_numbers(out: &mut Vec<u8>, numbers: &[u32]) -> Result<(), OutOfMemory>
    ensures { OnOk result (out.new.items ≡ out.old.items ++ line_of (map vertex numbers.now)) }
{
    let mut rest = numbers;
    while let [first, more @ ..] = rest {
        put_u64(out, *first as u64 + 1)?;
        put_separator(out, more.is_empty())?;
        rest = more;
    }
    Ok(())
}

/// Appends the line of an element with these neighbours. An error is want of memory.
pub fn put_line(out: &mut Vec<u8>, numbers: &[u32]) -> Result<(), OutOfMemory>
    ensures { OnOk result (out.new.items ≡ out.old.items ++ graph_line numbers.now) }
{
    match numbers {
        [] => out.extend_from_slice(b"\n"),
        _ => put_numbers(out, numbers),
    }
}

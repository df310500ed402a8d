// The line of a fault.

ghost use Rattle.std.specs.Prelude.{◌≡◌, ◌++◌, codes, OnOk};
ghost use Rattle.std.specs.Fmt.{decimal};
ghost use Rattle.command_words.specs.Lines.{at_place, fault_name, part_name, fault_line};

use command_words::answer_lines::{put_counted, put_named, put_placed};
use kernel_model::types::KernelFault;
use op_num::{Fault, OutOfMemory, put_u64};

// The name of a kind of fault.
fn fault_name(kind: Fault) -> &'static [u8]
    ensures { result.now ≡ fault_name kind }
{
    match kind {
        Fault::DivZero => b"div-zero",
        Fault::ShiftCount => b"shift-count",
        Fault::Index => b"index",
    }
}

// The element at which a loop stopped, or that a statement of `main` did.
fn put_part(out: &mut Vec<u8>, element: Option<u32>) -> Result<(), OutOfMemory>
    ensures { OnOk result (out.new.items ≡ out.old.items ++ part_name element) }
{
    match element {
        Some(element) => put_counted(out, b"element", element as u64),
        None => out.extend_from_slice(b"host"),
    }
}

/// Appends the line of a fault: of an item, by its number in the whole program, at an element of its loop or at a
/// statement of `main`. An error is want of memory.
pub fn put_fault(
    out: &mut Vec<u8>,
    item: u64,
    element: Option<u32>,
    fault: KernelFault,
) -> Result<(), OutOfMemory>
    ensures { OnOk result (out.new.items ≡ out.old.items
        ++ fault_line (record { item = item; element = element; fault = fault })) }
{
    put_named(out, b"op2: ", b"fault item ")?;
    put_stop(out, item, element)?;
    put_kind(out, fault)?;
    out.extend_from_slice(b"\n")
}

// The item, and where in it the run stopped.
fn put_stop(out: &mut Vec<u8>, item: u64, element: Option<u32>) -> Result<(), OutOfMemory>
    ensures { OnOk result (out.new.items ≡ out.old.items ++ decimal item ++ codes " " ++ part_name element) }
{
    put_u64(out, item)?;
    out.extend_from_slice(b" ")?;
    put_part(out, element)
}

// The kind of a fault, and its place.
fn put_kind(out: &mut Vec<u8>, fault: KernelFault) -> Result<(), OutOfMemory>
    ensures { OnOk result (out.new.items ≡ out.old.items ++ codes " " ++ fault_name fault.kind ++ at_place fault.at) }
{
    out.extend_from_slice(b" ")?;
    put_placed(out, fault_name(fault.kind), fault.at)
}

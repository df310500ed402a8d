// What is shown of a text.
ghost use Rattle.std.specs.Prelude.{◌≡◌, ◌++◌, OnOk};
ghost use Rattle.explanations.specs.Texts.{shown_text};

use crate::meanings::finding::field;
use std::alloc::AllocError;

/// Appends a text: its name, its cause, and what to do about it, each on a line. An error is want of memory.
pub fn put_text(out: &mut Vec<u8>, text: &[u8]) -> Result<(), AllocError>
    ensures { OnOk result (out.new.items ≡ out.old.items ++ shown_text text.now) }
{
    out.extend_from_slice(field(text, 0))?;
    out.extend_from_slice(b"\n  ")?;
    out.extend_from_slice(field(text, 2))?;
    out.extend_from_slice(b"\n  -> ")?;
    out.extend_from_slice(field(text, 3))?;
    out.extend_from_slice(b"\n")
}

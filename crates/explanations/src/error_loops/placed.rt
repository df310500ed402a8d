// Places of tokens in the source.
ghost use Rattle.std.specs.Prelude.{◌≡◌, ◌++◌, codes, OnOk};
ghost use Rattle.std.specs.Fmt.{decimal};
ghost use Rattle.explanations.specs.Placed.{place_of, placed};

use crate::{Place, put_place};
use c_tree::lexer::Pos;
use op_num::{OutOfMemory, put_u64};

/// The place of a token, as a line of `op2` tells it.
pub fn place_of(at: Pos) -> Place
    ensures { result ≡ place_of at }
{
    Place {
        line: u64::from(at.line),
        column: u64::from(at.column),
    }
}

/// Appends ` at L:C` for the place of a token, and, behind an LF, its line of the source with a caret under it, if the
/// source has the line. An error is want of memory.
pub fn put_placed(out: &mut Vec<u8>, source: &[u8], at: Pos) -> Result<(), OutOfMemory>
    ensures { OnOk result (out.new.items ≡ out.old.items ++ placed source.now at) }
{
    out.extend_from_slice(b" at ")?;
    put_u64(out, u64::from(at.line))?;
    out.extend_from_slice(b":")?;
    put_u64(out, u64::from(at.column))?;
    out.extend_from_slice(b"\n")?;
    put_place(out, source, Some(place_of(at)))
}

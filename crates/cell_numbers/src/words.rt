// What is said of what is shown.
ghost use Rattle.std.specs.Prelude.{◌≡◌, ◌++◌, OnOk};
ghost use Rattle.std.specs.Fmt.{decimal};
ghost use Rattle.cell_numbers.specs.Numbers.{shown_text};

use crate::types::Shown;
use op_num::{OutOfMemory, put_u64};

// Words, and a number behind them.
fn put_numbered(out: &mut Vec<u8>, words: &[u8], number: u32) -> Result<(), OutOfMemory>
    ensures { OnOk result (out.new.items ≡ out.old.items ++ (words.now ++ decimal number)) }
{
    out.extend_from_slice(words)?;
    put_u64(out, number as u64)
}

/// Appends what is said of what is shown, behind a space, for titles. It fails only for want of memory.
pub fn put_shown(out: &mut Vec<u8>, shown: Shown) -> Result<(), OutOfMemory>
    ensures { OnOk result (out.new.items ≡ out.old.items ++ shown_text shown) }
{
    match shown {
        Shown::Owners => out.extend_from_slice(b" by owner"),
        Shown::Halos { rank } => put_numbered(out, b" of rank ", rank),
        Shown::Colours { site } => put_numbered(out, b" by block colour of loop ", site),
    }
}

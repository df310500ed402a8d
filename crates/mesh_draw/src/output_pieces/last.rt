// The lines of the elements of a dat where a program prints it last.
ghost use Rattle.std.specs.Prelude.{◌≡◌, ◌+◌, ◌<◌, length, is_some, IfOk, IfErr, IfSome};
ghost use Rattle.mesh_decl.specs.Mesh.{dat_count};
ghost use Rattle.bound_program.specs.Values.{bound_of, item_of};
ghost use Rattle.bound_program.specs.Fits.{Fits};
ghost use Rattle.mesh_draw.specs.Found.{Names};
ghost use Rattle.mesh_draw.specs.Last.{prints_dat, AreLastRows, HasNoLastRows};
ghost use Rattle.mesh_draw.specs.LastFound.{IsFoundLast};

use crate::output_pieces::headers::write_header;
use crate::output_pieces::lines::{lines_in, lines_len};
use crate::output_pieces::pieces::end_of;
use crate::output_pieces::prints::{lines_of, sum};
use crate::output_pieces::refusals::PieceRefusal;
use bound_program::{Act, Bound, Item};
use std::alloc::Global;

/// The lines of the elements of a dat in an output.
#[derive(Clone, Copy, Debug)]
pub struct LastRows<'a> {
    /// A line for each element.
    pub rows: &'a [u8],
    /// How many LFs stand before them in the output.
    pub before: u64,
}

// What stands for the file where a dat is printed, and how many LFs the items before print.
#[derive(Clone, Copy, Debug)]
struct LastPrint<'a> {
    file: &'a [u8],
    before: u64,
}

// The text that stands for the file, where an item prints this dat.
fn file_of<'a>(item: &'a Item, dat: u32) -> Option<&'a [u8]>
    ensures some { IfSome result (λ file. Names (item_of item.now) file.now dat) }
    ensures is { is_some result ≡ prints_dat dat (item_of item.now) }
{
    let Item::Host { act } = item else {
        return None;
    };
    match &*act.act {
        Act::Print { dat: other, file } if *other == dat => Some(file.bytes()),
        _ => None,
    }
}

// The last print of a dat.
fn find_last<'a>(
    alloc: Global,
    bound: &'a Bound,
    dat: u32,
) -> Result<Option<LastPrint<'a>>, PieceRefusal>
    requires { Fits (bound_of bound.now) }
    ensures ok { IfOk result (IsFoundLast (bound_of bound.now) (length (bound_of bound.now).trace) dat) }
    ensures err { IfErr result (λ e. e ≡ PieceRefusal.OutOfMemory) }
{
    let mut header = Vec::new(alloc);
    let mut before = 0;
    let mut last = None;
    for item in &bound.trace {
        if let Some(file) = file_of(item, dat) {
            last = Some(LastPrint { file, before });
        }
        before = sum(before, lines_of(&mut header, &bound.mesh, item)?)?;
    }
    Ok(last)
}

/// What a program prints of the elements of a dat where it prints it last, a line for each, out of the output of a run:
/// where the program's trace says that they stand. What is behind them may be anything.
///
/// `NoPrint`: the program doesn't print the dat. `NoHeader`: the dat's first line isn't where it should end. `FewRows`:
/// the output has too few lines behind it. `OutOfMemory`: for want of memory alone, also where lines can't be counted
/// in 64 bits.
pub fn last_rows<'a>(
    alloc: Global,
    bound: &Bound,
    output: &'a [u8],
    dat: u32,
) -> Result<LastRows<'a>, PieceRefusal>
    requires fits { Fits (bound_of bound.now) }
    requires dat { dat < dat_count bound.now.mesh }
    ensures ok { IfOk result (λ r. AreLastRows (bound_of bound.now) dat output.now r.rows.now r.before) }
    ensures err { IfErr result (HasNoLastRows (bound_of bound.now) dat output.now) }
{
    let Some(print) = find_last(alloc, bound, dat)? else {
        return Err(PieceRefusal::NoPrint);
    };
    let mut header = Vec::new(alloc);
    write_header(&mut header, print.file, &bound.mesh, dat)?;
    bound.mesh.is_in_range();
    let (set, _) = bound.mesh.dat_shape(dat);
    let end = end_of(output, &header, print.before)?;
    let Some(rows) = lines_len(&output[end..], bound.mesh.set_size(set) as u64) else {
        let line = lines_in(output) + 1;
        return Err(PieceRefusal::FewRows { line });
    };
    Ok(LastRows {
        rows: &output[end..end + rows],
        before: sum(print.before, lines_in(&header))?,
    })
}

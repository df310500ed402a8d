// The piece of an output that is a printed dat.
ghost use Rattle.std.specs.Prelude.{◌≡◌, ◌<◌, IfOk, IfErr};
ghost use Rattle.bound_program.specs.Values.{bound_of};
ghost use Rattle.bound_program.specs.Fits.{Fits};
ghost use Rattle.mesh_draw.specs.Pieces.{IsPiece};
ghost use Rattle.mesh_draw.specs.Answered.{IsRefused};
ghost use Rattle.mesh_draw.specs.Cuts.{IsClosed, IsBehind, IsUncut};

use crate::output_pieces::headers::write_header;
use crate::output_pieces::lines::{lines_in, lines_len};
use crate::output_pieces::prints::find_print;
use crate::output_pieces::refusals::PieceRefusal;
use bound_program::Bound;
use std::alloc::Global;

/// Where `header` ends, which stands in the output behind so many LFs.
pub fn end_of(output: &[u8], header: &[u8], before: u64) -> Result<usize, PieceRefusal>
    requires { IsClosed header.now }
    ensures ok { IfOk result (IsBehind before header.now output.now) }
    ensures err { IfErr result (IsUncut before header.now output.now) }
{
    let Some(line) = before.checked_add(lines_in(header)) else {
        return Err(PieceRefusal::OutOfMemory);
    };
    let Some(end) = lines_len(output, line) else {
        return Err(PieceRefusal::NoHeader { line });
    };
    if output[..end].ends_with(header) {
        Ok(end)
    } else {
        Err(PieceRefusal::NoHeader { line })
    }
}

/// What the dat that a program prints with `file` as its file, behind `earlier` such dats, says in the output of a run:
/// its first line and a line for each element, where the program's trace says that they stand. What is behind them may
/// be anything, as a dump, or be missing.
///
/// `NoPrint`: the program prints no more than those. `NoHeader`: the dat's first line isn't where it should end.
/// `FewRows`: the output has too few lines behind it. `OutOfMemory`: for want of memory alone, also where lines can't
/// be counted in 64 bits.
pub fn piece_of<'a>(
    alloc: Global,
    bound: &Bound,
    output: &'a [u8],
    file: &[u8],
    earlier: u64,
) -> Result<&'a [u8], PieceRefusal>
    requires { Fits (bound_of bound.now) }
    ensures ok { IfOk result (λ piece. IsPiece (bound_of bound.now) file.now earlier output.now piece.now) }
    ensures err { IfErr result (IsRefused (bound_of bound.now) file.now earlier output.now) }
{
    let print = find_print(alloc, bound, file, earlier)?;
    let mut header = Vec::new(alloc);
    write_header(&mut header, file, &bound.mesh, print.dat)?;
    bound.mesh.is_in_range();
    let (set, _) = bound.mesh.dat_shape(print.dat);
    let end = end_of(output, &header, print.before)?;
    let Some(rows) = lines_len(&output[end..], bound.mesh.set_size(set) as u64) else {
        let line = lines_in(output) + 1;
        return Err(PieceRefusal::FewRows { line });
    };
    Ok(&output[end - header.len()..end + rows])
}

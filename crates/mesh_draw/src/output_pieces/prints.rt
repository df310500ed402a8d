// The item of a program that prints a dat, and how many lines the items before it print.
ghost use Rattle.std.specs.Prelude.{◌≡◌, ◌+◌, ◌<◌, is_some, IfOk, IfErr, IfSome};
ghost use Rattle.bound_program.specs.Values.{bound_of, item_of, told_act_of, Host};
ghost use Rattle.bound_program.specs.Fits.{Fits};
ghost use Rattle.mesh_draw.specs.Pieces.{item_lines, is_print};
ghost use Rattle.mesh_draw.specs.Found.{FitsHere, Names, IsFound, IsMissing};

use crate::output_pieces::headers::write_header;
use crate::output_pieces::lines::lines_in;
use crate::output_pieces::refusals::PieceRefusal;
use bound_program::{Act, Bound, Item, ToldAct};
use mesh_decl::Mesh;
use std::alloc::Global;

/// A dat that an item prints, and how many LFs the items before it print.
#[derive(Clone, Copy, Debug)]
pub struct Print {
    pub dat: u32,
    pub before: u64,
}

/// The sum of two counts of lines.
pub fn sum(a: u64, b: u64) -> Result<u64, PieceRefusal>
    ensures ok { IfOk result (λ s. s ≡ a + b) }
    ensures err { IfErr result (λ e. e ≡ PieceRefusal.OutOfMemory) }
{
    match a.checked_add(b) {
        Some(sum) => Ok(sum),
        None => Err(PieceRefusal::OutOfMemory),
    }
}

// How many LFs a statement prints. `header` is used for the first line of a dat.
fn statement_lines(
    header: &mut Vec<u8>,
    mesh: &Mesh,
    statement: &ToldAct,
) -> Result<u64, PieceRefusal>
    requires { FitsHere mesh.now (Host (told_act_of statement.now)) }
    ensures ok { IfOk result (λ n. n ≡ item_lines mesh.now (Host (told_act_of statement.now))) }
    ensures err { IfErr result (λ e. e ≡ PieceRefusal.OutOfMemory) }
{
    match &*statement.act {
        Act::Line { text, .. } => Ok(lines_in(text.bytes())),
        Act::Print { dat, file } => {
            write_header(header, file.bytes(), mesh, *dat)?;
            mesh.is_in_range();
            let (set, _) = mesh.dat_shape(*dat);
            sum(lines_in(header), mesh.set_size(set) as u64)
        }
        _ => Ok(0),
    }
}

/// How many LFs an item prints. `header` is used for the first line of a dat.
pub fn lines_of(header: &mut Vec<u8>, mesh: &Mesh, item: &Item) -> Result<u64, PieceRefusal>
    requires { FitsHere mesh.now (item_of item.now) }
    ensures ok { IfOk result (λ n. n ≡ item_lines mesh.now (item_of item.now)) }
    ensures err { IfErr result (λ e. e ≡ PieceRefusal.OutOfMemory) }
{
    match item {
        Item::Host { act } => statement_lines(header, mesh, act),
        _ => Ok(0),
    }
}

// The dat that an item prints with this text as its file, if it does.
fn printed_by(item: &Item, file: &[u8]) -> Option<u32>
    ensures some { IfSome result (Names (item_of item.now) file.now) }
    ensures is { is_some result ≡ is_print file.now (item_of item.now) }
{
    let Item::Host { act } = item else {
        return None;
    };
    match &*act.act {
        Act::Print { dat, file: other } if other.bytes() == file => Some(*dat),
        _ => None,
    }
}

/// The item that prints a dat with `file` as its file behind `earlier` such items: its dat, and the LFs before it.
///
/// `NoPrint` comes exactly where there are no more than those; else an error is want of memory, also where lines can't
/// be counted in 64 bits.
pub fn find_print(
    alloc: Global,
    bound: &Bound,
    file: &[u8],
    earlier: u64,
) -> Result<Print, PieceRefusal>
    requires { Fits (bound_of bound.now) }
    ensures ok { IfOk result (IsFound (bound_of bound.now) file.now earlier) }
    ensures err { IfErr result (IsMissing (bound_of bound.now) file.now earlier) }
{
    let mut header = Vec::new(alloc);
    let mut before = 0;
    let mut left = earlier;
    for item in &bound.trace {
        if let Some(dat) = printed_by(item, file) {
            if left == 0 {
                return Ok(Print { dat, before });
            }
            left -= 1;
        }
        before = sum(before, lines_of(&mut header, &bound.mesh, item)?)?;
    }
    Err(PieceRefusal::NoPrint)
}

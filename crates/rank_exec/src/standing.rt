// Dats whose cells stand side by side on one rank.

ghost use Rattle.std.specs.Prelude.{◌<◌, IfSome};
ghost use Rattle.mesh_decl.specs.Mesh.{dat_count, dat_set, set_size};
ghost use Rattle.rank_exec.specs.Standing.{IsJoined, StandOn};
ghost use Rattle.rank_program.specs.Sound.{program_in, setup_in, layout_in};

use rank_program::{Runnable, owners_copy};
use rank_state::Owned;

// Cells of a rank with the next ones, where these stand behind them.
fn joined(cells: Owned, next: Owned) -> Option<Owned>
    ensures { IfSome result (IsJoined cells next) }
{
    let end = cells.at.checked_add(cells.dim)?;
    if next.rank != cells.rank || next.at != end {
        return None;
    }
    let dim = cells.dim.checked_add(next.dim)?;
    Some(Owned {
        rank: cells.rank,
        at: cells.at,
        dim,
    })
}

/// The cells of a dat, where they stand one after another on one rank, in the order of the dat's elements. It takes
/// time linear in these, and no memory.
pub fn standing_cells(program: &Runnable<'_>, dat: u32) -> Option<Owned>
    requires { dat < dat_count (program_in program.now).mesh }
    ensures { IfSome result (StandOn (program_in program.now) (setup_in program.now) (layout_in program.now) dat
        (set_size (program_in program.now).mesh (dat_set (program_in program.now).mesh dat))) }
{
    let mesh = &program.parts().bound.mesh;
    mesh.dat_count();
    let (set, _) = mesh.dat_shape(dat);
    let size = mesh.set_size(set);
    if size == 0 {
        return None;
    }
    let first = owners_copy(program, dat, 0);
    let mut cells = Owned {
        rank: first.rank,
        at: first.at,
        dim: 0,
    };
    for element in 0..size {
        cells = joined(cells, owners_copy(program, dat, element))?;
    }
    Some(cells)
}

// Runs of elements in place.

ghost use Rattle.std.specs.Prelude.{◌≡◌, ◌<◌, ◌≤◌, [], length};
ghost use Rattle.mesh_decl.specs.Mesh.{dat_count, dat_set, set_size};
ghost use Rattle.schedule_model.specs.Cells.{Store};
ghost use Rattle.bound_program.specs.Fits.{ArgFits, ViaFits, site_at};
ghost use Rattle.run_model.specs.Windows.{Element, cell_in, element_by};
ghost use Rattle.run_model.specs.Kernels.{constants, constant_values, element_run};
ghost use Rattle.deep_halo.specs.Placed.{arg_place as place_of_arg, arg_places, HoldsWindows, EndsPlaced};
ghost use Rattle.deep_halo.specs.Places.{all_cells, block_at, AtRank};
ghost use Rattle.deep_halo.specs.Sound.{Sound, IsLoop, program_in, ranks_in, place_in};

use crate::chain_memory::blocks::Blocks;
use crate::chain_memory::loops::{Loop, MAX_ARGS};
use crate::chain_memory::places::{owner_of, pair_at, variable_at, width_of};
use bound_program::{Arg, Via};
use kernel_model::types::KernelFault;
use kernel_model::types::views::Place;
use kernel_runs::in_place::{KernelInPlace, run_here};

// All arguments' cells are taken over from a run.
const MARKS: [bool; MAX_ARGS] = [true; MAX_ARGS];

/// The element of a dat's set to which an element of the loop's set `set` leads, itself or by a map; both by original
/// numbers.
pub fn target_of(blocks: &Blocks<'_>, set: u32, dat: u32, via: Option<Via>, element: u32) -> u32
    requires fits { ViaFits (program_in blocks.now) set dat via }
    requires element { element < set_size (program_in blocks.now).mesh set }
    ensures is { result ≡ element_by (program_in blocks.now) via element }
    ensures within { result < set_size (program_in blocks.now).mesh (dat_set (program_in blocks.now).mesh dat) }
{
    match via {
        None => element,
        Some(via) => blocks.bound.mesh.target(via.map, element, via.index),
    }
}

// The block in which a pair stands: of a rank, or of its owner.
fn block_of(blocks: &Blocks<'_>, at: Option<u32>, dat: u32, element: u32) -> u32
    requires sound { Sound blocks.now }
    requires at { AtRank (ranks_in blocks.now) at }
    requires dat { dat < dat_count (program_in blocks.now).mesh }
    requires element { element < set_size (program_in blocks.now).mesh (dat_set (program_in blocks.now).mesh dat) }
    ensures is { result ≡ block_at (program_in blocks.now) blocks.now.owners.now at (cell_in (Element dat element) 0) }
    ensures below { result < ranks_in blocks.now }
{
    match at {
        Some(rank) => rank,
        None => owner_of(blocks, dat, element),
    }
}

// Where the cells of an argument stand, for an element.
fn arg_place(blocks: &Blocks<'_>, at: Option<u32>, set: u32, arg: Arg, element: u32) -> Place
    requires sound { Sound blocks.now }
    requires at { AtRank (ranks_in blocks.now) at }
    requires fits { ArgFits (program_in blocks.now) set arg }
    requires element { element < set_size (program_in blocks.now).mesh set }
    ensures { result ≡ place_of_arg (program_in blocks.now) [] element (place_in blocks.now at) arg }
{
    match arg {
        Arg::Dat { dat, via, .. } => {
            let (_, dim) = blocks.bound.mesh.dat_shape(dat);
            let target = target_of(blocks, set, dat, via, element);
            let block = block_of(blocks, at, dat, target);
            Place {
                from: pair_at(blocks, block, dat, target),
                count: dim as usize,
            }
        }
        Arg::Global { var, .. } => {
            let block = at.unwrap_or(blocks.owners.ranks);
            Place {
                from: variable_at(blocks, block, var),
                count: width_of(blocks, var),
            }
        }
    }
}

// Where the cells of each argument stand, for an element.
fn put_places(
    blocks: &Blocks<'_>,
    at: Option<u32>,
    all: &Loop<'_>,
    element: u32,
    places: &mut [Place],
)
    requires sound { Sound blocks.now }
    requires at { AtRank (ranks_in blocks.now) at }
    requires of { IsLoop (program_in blocks.now) all.now }
    requires element { element < set_size (program_in blocks.now).mesh all.now.set }
    requires count { length places.old ≡ length all.now.args.now }
    ensures { places.new ≡ arg_places (program_in blocks.now) all.now.args.now element (place_in blocks.now at) }
{
    for (i, arg) in all.args.iter().enumerate() {
        places[i] = arg_place(blocks, at, all.set, *arg, element);
    }
}

/// Runs a loop's kernel for an element, in the block of rank `at`, or on the owners' pairs and the program's variables
/// where there is no rank. Answers the kernel's fault, if it has one, after which the memory is as it was. `element` is
/// an original number; `values` are those of all constants; `saved` and `locals` are room, whatever they hold. Takes no
/// memory.
pub fn run_element(
    memory: &mut [i32],
    blocks: &Blocks<'_>,
    all: &Loop<'_>,
    at: Option<u32>,
    element: u32,
    values: &[i32],
    saved: &mut [i32],
    locals: &mut [i32],
) -> Option<KernelFault>
    requires sound { Sound blocks.now }
    requires at { AtRank (ranks_in blocks.now) at }
    requires of { IsLoop (program_in blocks.now) all.now }
    requires element { element < set_size (program_in blocks.now).mesh all.now.set }
    requires memory { length memory.old ≡ all_cells (program_in blocks.now) (ranks_in blocks.now) }
    requires values { length values.now ≡ length (constants (program_in blocks.now)) }
    requires saved { 1024 ≤ length saved.old }
    requires locals { all.now.code.now.slots ≤ length locals.old }
    ensures { (s : Store) → HoldsWindows (program_in blocks.now) all.now.args.now element (place_in blocks.now at) memory.old s
        → values.now ≡ constant_values (program_in blocks.now) s
        → EndsPlaced (program_in blocks.now) all.now.args.now element (place_in blocks.now at) memory.old memory.new s result
        (element_run (program_in blocks.now) (site_at (program_in blocks.now) all.now.site) element s) }
{
    blocks.bound.mesh.is_in_range();
    run_model::windows_are_reached();
    crate::chain_memory::placed_runs::placed_elements_run();
    let mut places = [Place { from: 0, count: 0 }; MAX_ARGS];
    let places = &mut places[..all.args.len()];
    put_places(blocks, at, all, element, places);
    let kernel = KernelInPlace {
        code: all.code,
        marks: &MARKS[..all.args.len()],
        clean: false,
        constants: values,
    };
    run_here(&kernel, memory, places, saved, locals)
}

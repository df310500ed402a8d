// What the elements of a loop that run on a rank's own cells have in common, looked up once for all of them.

ghost use Rattle.std.specs.Prelude.{◌≡◌, ℕ, ◌<◌, ◌≤◌, false, length, get_or};
ghost use Rattle.schedule_steps.specs.declared.step.Step.TheVariants.{Begin};
ghost use Rattle.rank_program.specs.LocalLoops.{IsLocalLoop, IsLoopOf};
ghost use Rattle.rank_program.specs.Sound.{layout_in, tables_in, HasStep};

use crate::items::{loop_of, site_of};
use crate::local_args::put_local_args;
use crate::program::DistributedProgram;
use crate::rank_elements::RankElements;
use kernel_code::Code;
use kernel_runs::row_batches::batch_tables::LocalArg;
use local_mesh::RankMesh;
use rank_layout::{MachineTables, element_windows_stand, row_of, steps_stand, windows_stand};
use rank_state::Scalar;

/// The loop of an item on a rank over some of its elements, with the values that its kernel reads.
#[derive(Drop)]
pub struct LocalLoop<'a> {
    pub program: &'a DistributedProgram<'a>,
    pub item: u32,
    pub rank: u32,
    /// The places of the elements on the rank.
    pub places: &'a [u32],
    /// The rank's local mesh.
    pub part: &'a RankMesh,
    /// The code of the loop's kernel.
    pub code: &'a Code<'a>,
    /// Whether the kernel's faults come before its stores.
    pub clean: bool,
    /// Of each argument, whether the loop modifies its dat; one on a variable counts as if it did.
    pub marks: &'a [bool],
    /// The cells of its arguments on variables, in the order in which they stand behind the rank's cells.
    pub scalars: &'a [Scalar],
    /// The values of the constants, and those of all variables' cells.
    pub constants: &'a [i32],
    pub variables: &'a [i32],
    /// The arguments by local numbers.
    pub args: &'a [Option<LocalArg<'a>>],
}

// Whether the faults of a loop's kernel come before its stores.
fn faults_first(tables: &MachineTables, number: u32) -> bool
    requires { number < length tables.now.faults_first.items }
    ensures { result ≡ get_or tables.now.faults_first.items number false }
{
    tables.faults_first[number as usize]
}

/// The loop of elements on a rank, of which there is one, with the values of the constants. `room` is lent for its
/// arguments. Takes no memory.
pub fn local_loop<'p: 'a, 'a>(
    elements: &'a RankElements<'p>,
    constants: &'a [i32],
    room: &'a mut [Option<LocalArg<'p>>],
) -> LocalLoop<'a>
    requires step { (place : ℕ) × HasStep elements.now.program.now (Begin elements.now.item elements.now.rank place) }
    requires constants { length constants.now ≡ length (tables_in elements.now.program.now).constants }
    requires variables { length elements.now.variables.now ≡ (layout_in elements.now.program.now).variables }
    requires room { 16 ≤ length room.old }
    ensures of { IsLoopOf elements.now constants.now result }
    ensures is { IsLocalLoop result }
{
    let program = elements.program.parts();
    steps_stand();
    windows_stand();
    element_windows_stand();
    run_model::constants_are_read();
    let number = loop_of(program.bound, elements.item);
    let site = site_of(program.bound, elements.item);
    let part = &program.meshes[elements.rank as usize];
    let args = &mut room[..site.args.len()];
    put_local_args(&program.bound.mesh, part, &site.args, args);
    LocalLoop {
        program,
        item: elements.item,
        rank: elements.rank,
        places: elements.places,
        part,
        code: &program.codes[site.kernel as usize],
        clean: faults_first(&program.tables, number),
        marks: row_of(&program.tables.writes, number),
        scalars: row_of(&program.tables.scalars, number),
        constants,
        variables: elements.variables,
        args,
    }
}

// Loops on a rank whose elements run in rows: what batches look up, made once for a call.

ghost use Rattle.std.specs.Prelude.{◌≡◌, ◌<◌, ◌≤◌, ◌^◌, ℕ, IfSome, length};
ghost use Rattle.rank_program.specs.Batches.{IsRowLoop, BeginsAt};
ghost use Rattle.rank_program.specs.LocalLoops.{IsLocalLoop, VariablesStand};

use crate::items::site_of;
use crate::local_loops::LocalLoop;
use crate::room::MOST_COLUMNS;
use crate::runnable::Runnable;
use bound_program::Item;
use kernel_code::Code;
use kernel_model::types::views::Place;
use kernel_runs::row_batches::batch_tables::{
    put_columns, put_pairs, put_scalars, put_ways, stores,
};
use kernel_runs::row_batches::{LocalVia, RowColumn, RowLoop};
use op_num::reductions::Access;
use rank_layout::{MAX_ARGS, element_windows_stand, steps_stand, windows_stand};

/// As many pairs as a loop has of different arguments at most.
pub const MOST_PAIRS: usize = MAX_ARGS * (MAX_ARGS - 1) / 2;

/// A column that stands for none.
pub fn no_column() -> RowColumn {
    RowColumn {
        way: 0,
        cell: 0,
        dim: 0,
        access: Access::Read,
    }
}

/// A loop on a rank as its elements run one after another, and as they run in rows.
#[derive(Drop)]
pub struct LoopInRows<'a> {
    pub local: &'a LocalLoop<'a>,
    pub rows: RowLoop<'a>,
}

/// The loop as its elements run in rows, where its kernel has few columns. `cells` are
/// places of its arguments on variables. The other slices are lent for its tables, whatever they hold: the ways, the
/// columns, the places of arguments in a row's frame, and pairs of ways.
pub fn row_loop<'p: 'a, 'a>(
    local: &'a LocalLoop<'p>,
    cells: &[Place],
    ways: &'a mut [Option<LocalVia<'p>>],
    columns: &'a mut [RowColumn],
    places: &'a mut [Place],
    pairs: &'a mut [(usize, usize)],
) -> Option<RowLoop<'a>>
    requires is { IsLocalLoop local.now }
    requires step { (place : ℕ) × BeginsAt local.now place }
    requires stand { VariablesStand local.now cells.now }
    requires ways { 16 ≤ length ways.old }
    requires columns { length columns.old < 2 ^ 32 }
    requires places { length places.old ≡ length local.now.args.now }
    ensures { IfSome result (IsRowLoop local.now) }
{
    steps_stand();
    windows_stand();
    element_windows_stand();
    bound_plan::frames_are_reached();
    let site = site_of(local.program.bound, local.item);
    let width = local.part.cells;
    let mut room = [0; MAX_ARGS];
    let numbers = &mut room[..site.args.len()];
    let ways = &mut ways[..site.args.len()];
    put_ways(&site.args, local.args, numbers, ways);
    let count = put_columns(&site.args, local.args, numbers, columns, places)?;
    if count + local.scalars.len() + local.code.slots as usize > MOST_COLUMNS {
        return None;
    }
    put_scalars(local.args, cells, count, width, places);
    let found = put_pairs(&site.args, numbers, pairs)?;
    let columns = &columns[..count];
    Some(RowLoop {
        code: local.code,
        ways,
        columns,
        scalars: local.scalars,
        places,
        pairs: &pairs[..found],
        differ: stores(columns),
        constants: local.constants,
        variables: local.variables,
    })
}

/// Whether elements with this kernel may run in batches: it has not too many slots.
pub fn runs_in_batches(code: &Code<'_>) -> bool {
    code.slots as usize <= MOST_COLUMNS
}

/// Whether the elements of a Free item may run in batches, as their kernel may. Where it may not, they run one after
/// another.
pub fn comes_in_batches(program: &Runnable<'_>, item: u32) -> bool {
    let program = program.parts();
    let Some(Item::Free { site }) = program.bound.trace.get(item as usize) else {
        return false;
    };
    let Some(site) = program.bound.sites.get(*site as usize) else {
        return false;
    };
    let Some(code) = program.codes.get(site.kernel as usize) else {
        return false;
    };
    runs_in_batches(code)
}

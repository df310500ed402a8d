// The tables of a machine are made.

ghost use Rattle.std.specs.Prelude.{◌^◌, ◌<◌, IfOk, List, length};
ghost use Rattle.local_mesh.specs.declared.lists.LocalLists.{LocalLists as TheLists};
ghost use Rattle.bound_program.specs.Values.{bound_of};
ghost use Rattle.bound_program.specs.Fits.{Fits};
ghost use Rattle.run_model.specs.Hosts.{variable_cells};
ghost use Rattle.loop_plan.specs.Values.{plan_of};
ghost use Rattle.rank_layout.specs.Made.{HaveRoom, AreMade};

use crate::constant_table::constant_table;
use crate::fault_table::loop_faults_first;
use crate::place_table::place_table;
use crate::scalar_tables::{loop_indices, loop_scalars};
use crate::tables::MachineTables;
use crate::widths::stride;
use crate::write_table::loop_writes;
use bound_program::Bound;
use loop_plan::Plan;
use mesh_decl::Owners;
use op_num::OutOfMemory;
use run_model::gather::host_acts::variable_starts;
use std::alloc::Global;

impl MachineTables {
    /// The tables of a bound program on several ranks with its plan; `spans` is enough for the spans of an element's
    /// frame and of each message. All variables together have fewer than 2^64 cells.
    ///
    /// It takes time linear in the program's arguments and their cells, and in its Free loops times the ranks.
    ///
    /// # Errors
    /// Want of memory alone.
    pub fn new(
        alloc: Global,
        bound: &Bound,
        owners: &Owners,
        plan: &Plan,
        spans: usize,
    ) -> Result<MachineTables, OutOfMemory>
        requires fits { Fits (bound_of bound.now) }
        requires few { length (variable_cells (bound_of bound.now)) < 2 ^ 64 }
        ensures { IfOk result (λ t. (lists : List TheLists)
            → HaveRoom (bound_of bound.now) owners.now.ranks (plan_of plan.now) lists spans
            → AreMade (bound_of bound.now) owners.now (plan_of plan.now) lists t) }
    {
        run_model::gather::host_acts::variables_hold();
        let starts = variable_starts(alloc, &bound.vars)?;
        let mut slots = Vec::new(alloc);
        let scalars = loop_scalars(alloc, bound, &starts, &mut slots)?;
        let indices = loop_indices(alloc, &scalars)?;
        let constants = constant_table(alloc, bound, &starts)?;
        let writes = loop_writes(alloc, bound)?;
        let faults_first = loop_faults_first(alloc, bound)?;
        let places = place_table(alloc, plan, owners.ranks)?;
        Ok(MachineTables {
            constants,
            starts,
            slots,
            scalars,
            indices,
            writes,
            faults_first,
            places,
            stride: stride(bound),
            spans,
        })
    }
}

// Programs that can be run.

ghost use Rattle.std.specs.Prelude.{◌≡◌, map, length, true, IfOk};
ghost use Rattle.kernel_code.specs.Codes.{AreCodesOf};
ghost use Rattle.bound_program.specs.Values.{bound_of, var_of};
ghost use Rattle.run_model.specs.Ranges.{AllObey};
ghost use Rattle.run_model.specs.Variables.{VarsBegin};
ghost use Rattle.rank_state.specs.Starting.{AreSlots, ArePlaces};
ghost use Rattle.rank_layout.specs.First.{first_variables};
ghost use Rattle.rank_program.specs.Sound.{Sound, program_in, setup_in, layout_in, tables_in};
ghost use Rattle.rank_program.specs.Constants.{ConstantsStay};
ghost use Rattle.rank_program.specs.Runnables.{HasLocalLists, IsProgramOf};

use crate::constants::constants_stay;
use crate::program::DistributedProgram;
use bound_program::Var;
use kernel_code::{Code, room_for};
use local_mesh::LocalLists;
use loop_plan::planned_program::Planned;
use op_num::OutOfMemory;
use rank_layout::{
    MachineTables, element_windows_stand, exports_are_few, first_cells_stand, most_spans,
    places_stand, rooms_stand, slots_stand, steps_stand, tables_are_indexed, variables_stand,
};
use rank_state::Operation;
use std::alloc::{AllocError, Global};
use std::marker::Model;

// How many cells all variables have. An error says that 64 bits are too few for it; no memory has so many.
fn count_cells(vars: &[Var]) -> Result<usize, OutOfMemory>
    ensures { IfOk result (λ n. n ≡ length (first_variables (map var_of vars.now))) }
{
    let mut count: usize = 0;
    for var in vars {
        count = count
            .checked_add(var.start.as_slice().len())
            .ok_or(AllocError)?;
    }
    Ok(count)
}

/// A program whose parts fit each other, so that the machine can run it on its ranks. Only [`Runnable::new`] makes one.
#[derive(Drop)]
pub struct Runnable<'a> {
    parts: DistributedProgram<'a>,
    // By loop, whether it is known to leave the constants.
    constants_stay: Vec<bool>,
}

impl<'a> Model for Runnable<'a> {
    ghost use Rattle.std.specs.Coded.{codes};
    ghost use Rattle.kernel_model.specs.contracts.types.statements.RStmt as statement;
    ghost use Rattle.kernel_model.specs.contracts.types.expressions.RExpr as expression;
    ghost use Rattle.kernel_code.specs.contracts.part.Part as part;
    ghost use Rattle.rank_program.specs.declared.program.DistributedProgram.{DistributedProgram};
    ghost use Rattle.rank_program.specs.Constants.{IsRunnable};

    ghost Value = { DistributedProgram };

    ghost coded = { Prim.hlevel (codes, statement.the_row.coded, expression.the_row.coded, part.the_row.coded) };

    ghost view = { λ r. r.parts };

    ghost invariant = { λ r. IsRunnable r.parts r.constants_stay.items };
}

impl<'a> Runnable<'a> {
    /// A planned program whose kernels obey their arguments' accesses, with the local numbers of what ranks own and
    /// exchange by set, and the codes of the kernels.
    ///
    /// It takes time linear in the program's arguments and their cells, in its Free loops times the ranks, and in the
    /// lists of what ranks export, for each dat.
    ///
    /// # Errors
    /// Want of memory alone.
    pub fn new(
        alloc: Global,
        planned: &'a Planned<'a>,
        lists: &'a [LocalLists],
        codes: &'a [Code<'a>],
    ) -> Result<Runnable<'a>, OutOfMemory>
        requires lists { HasLocalLists planned.now lists.now }
        requires codes { AreCodesOf (bound_of planned.now.bound).kernels codes.now }
        requires obey { AllObey (bound_of planned.now.bound) }
        ensures { IfOk result (IsProgramOf planned.now) }
    {
        bound_plan::layouts_fit();
        tables_are_indexed();
        variables_stand();
        exports_are_few();
        rooms_stand();
        first_cells_stand();
        steps_stand();
        element_windows_stand();
        kernel_runs::in_place::unwritten_stay();
        let (bound, plan) = (planned.bound, &planned.plan);
        let owners = &planned.distribution.owners;
        let meshes = planned.distribution.ranks.as_slice();
        let cells = count_cells(&bound.vars)?;
        let spans = most_spans(bound, lists, owners.ranks);
        let tables = MachineTables::new(alloc, bound, owners, plan, spans)?;
        let constants_stay = constants_stay(alloc, &tables.constants, &tables.indices, cells)?;
        Ok(Runnable {
            constants_stay,
            parts: DistributedProgram {
                bound,
                owners,
                meshes,
                lists,
                plan,
                codes,
                locals: room_for(codes),
                tables,
            },
        })
    }

    /// What it is made of, whose parts fit each other.
    pub fn parts(&self) -> &DistributedProgram<'a>
        ensures are { result.now ≡ self.now }
        ensures sound { Sound result.now }
    {
        &self.parts
    }

    /// A law: its parts fit each other.
    pub fn is_sound(&self)
        ensures { Sound self.now }
    {
        let _ = &self.parts;
    }

    /// Which of the variables' cells are the constants, by the numbers that kernels give these.
    pub fn constants(&self) -> &[usize]
        ensures { result.now ≡ (tables_in self.now).constants }
    {
        &self.parts.tables.constants
    }

    /// Whether the elements of the loop numbered `site` are known to leave the constants: none of its arguments is on a
    /// variable that holds one.
    pub fn constants_stay(&self, site: u32) -> bool
        ensures { result ≡ true → ConstantsStay self.now site }
    {
        self.constants_stay
            .get(site as usize)
            .copied()
            .unwrap_or(false)
    }

    /// How the loops reduce into the partials, by slot.
    pub fn slots(&self) -> &[Operation]
        ensures { AreSlots (setup_in self.now) (layout_in self.now) (tables_in self.now) result.now }
    {
        slots_stand();
        &self.parts.tables.slots
    }

    /// How many places there may be on each rank.
    pub fn places(&self) -> &[usize]
        ensures { ArePlaces (setup_in self.now) (layout_in self.now) (tables_in self.now) result.now }
    {
        places_stand();
        &self.parts.tables.places
    }

    /// The most cells of an element's windows.
    pub fn stride(&self) -> usize
        ensures { result ≡ (tables_in self.now).stride }
    {
        self.parts.tables.stride
    }

    /// Where each variable begins among the cells of all variables.
    pub fn starts(&self) -> &[usize]
        ensures { VarsBegin (program_in self.now).vars result.now }
    {
        &self.parts.tables.starts
    }
}

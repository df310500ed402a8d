// The elements of an item on all ranks of the machine.

ghost use Rattle.std.specs.Prelude.{◌≡◌, ◌<◌, ◌^◌, ℕ, List, All, length};
ghost use Rattle.kernel_model.specs.declared.types.faults.KernelFault.{KernelFault};
ghost use Rattle.rank_state.specs.Indices.{values_at};
ghost use Rattle.rank_state.specs.Shows.{Sized};
ghost use Rattle.rank_program.specs.AloneRuns.{AllBegin, Share};
ghost use Rattle.rank_program.specs.Rooms.{HasRoomOf};
ghost use Rattle.rank_program.specs.Sound.{setup_in, layout_in, tables_in};
ghost use Rattle.rank_machine.specs.OnRanks.{places_on, RanOnRanks, share_at, with_shares};

use crate::machine::Machine;
use crate::ranks::{RankPart, Round, run_lent};
use par_exec::{Crew, Gate};
use rank_program::Runnable;
use std::marker::Sync;
use std::thread::Threads;

impl Machine {
    /// How many ranks there are.
    pub fn ranks(&self) -> usize
        ensures { result ≡ length self.now.memories }
    {
        self.memories.len()
    }

    /// Runs the kernel for the elements at each rank's places, one after another, and puts back at once what each
    /// leaves; the ranks are shared out among the workers of `crew`, and its gate is told of each rank just before. The
    /// faults are put together by increasing rank. There are as many lists of places and parts as ranks; the parts'
    /// rooms have the values of all constants.
    pub fn on_ranks<R: Threads + Sync, G: Gate + Sync>(
        &mut self,
        crew: &Crew<'_, R, G>,
        program: &Runnable<'_>,
        item: u32,
        lists: &[Vec<u32>],
        parts: &mut [RankPart],
    )
        requires listed { length lists.now ≡ length parts.old }
        requires ranks { length parts.old ≡ length self.old.memories }
        requires few { length parts.old < 2 ^ 32 }
        requires sized { Sized (setup_in program.now) (layout_in program.now) (tables_in program.now) self.old }
        requires steps { (r : ℕ) → r < length parts.old
            → AllBegin (setup_in program.now) (layout_in program.now) (tables_in program.now) item r (places_on lists.now r) }
        requires constants { All
            (λ x. x.room.constants.items ≡ values_at self.old.variables (tables_in program.now).constants) parts.old }
        requires space { All (λ x. HasRoomOf program.now x.room) parts.old }
        ensures ran { (news : List (Share KernelFault)) × (length news ≡ length parts.old)
            × RanOnRanks (setup_in program.now) (layout_in program.now) (tables_in program.now) item
            (values_at self.old.variables (tables_in program.now).constants) self.old.variables (places_on lists.now) self.old
            (share_at news) (length news)
            × (self.new ≡ with_shares news self.old) }
        ensures space { All (λ x. HasRoomOf program.now x.room) parts.new }
        ensures count { length parts.new ≡ length parts.old }
    {
        let round = Round {
            program,
            lists,
            item,
            variables: &self.variables,
        };
        let kept = run_lent(
            crew,
            &round,
            &mut self.memories,
            &mut self.partials,
            self.fault,
            parts,
        );
        self.fault = kept;
    }
}

// The joins on the machine: what reduces into the variables, elements that run on the owners' cells, and host
// statements.

ghost use Rattle.std.specs.Prelude.{◌≡◌, ℕ, ◌+◌, ◌<◌, ◌≤◌, ◌*◌, ◌++◌, length, IfOk, OnOk};
ghost use Rattle.mesh_decl.specs.Mesh.{dat_count, dat_set, dat_dim, set_size};
ghost use Rattle.mesh_decl.specs.Printed.{printed_dat};
ghost use Rattle.bound_program.specs.Values.{told_act_of};
ghost use Rattle.bound_program.specs.Fits.{ActFits};
ghost use Rattle.run_model.specs.Hosts.{act_run};
ghost use Rattle.run_model.specs.Memory.{Holds, memory_length};
ghost use Rattle.run_model.specs.Acts.{program_of, Begins, ActEnds};
ghost use Rattle.schedule_model.specs.Cells.{Store};
ghost use Rattle.schedule_model.specs.Kept.{if_before};
ghost use Rattle.rank_state.specs.Spans.{cells_at};
ghost use Rattle.rank_state.specs.Windows.{Reads, Merges};
ghost use Rattle.rank_state.specs.Machine.{row};
ghost use Rattle.rank_state.specs.Joins.{reduced};
ghost use Rattle.rank_state.specs.Core.{fault_of};
ghost use Rattle.rank_state.specs.Ordered.{Within_all, total_all, all_windows, left_in};
ghost use Rattle.rank_state.specs.Indices.{InLength};
ghost use Rattle.rank_state.specs.Stops.{stop_in};
ghost use Rattle.rank_program.specs.Rooms.{HasKernelRoom};
ghost use Rattle.rank_program.specs.Sound.{Takes, layout_in};

use crate::machine::Machine;
use crate::reduce::{reduce_variables, unite_all};
use crate::running::run_owned;
use crate::windows::{KernelRun, OwnedWindows};
use bound_program::{Mesh, ToldAct};
use kernel_model::types::KernelFault;
use op_num::{OutOfMemory, Text};
use rank_program::KernelRoom;
use rank_state::rank_memory::stop::{Stop, before};
use rank_state::{Owned, Scalar};
use run_model::gather::host_acts::{Variables, run_act};
use run_model::gather::print_dat;
use std::alloc::Global;

impl Machine {
    /// The kept fault, where its item is before this one.
    pub fn fault_before(&self, item: u32) -> Option<Stop>
        ensures { stop_in result ≡ if_before item self.now.fault }
    {
        before(self.fault, item)
    }

    /// Merges the partials of all ranks into the variables, and sets them to their units.
    pub fn reduce(&mut self, scalars: &[Scalar])
        requires reads { Reads (length self.old.variables) scalars.now }
        requires rows { (i : ℕ) → i < length self.old.partials → Merges (length (row self.old.partials i)) scalars.now }
        ensures { self.new ≡ reduced scalars.now self.old }
    {
        reduce_variables(&mut self.variables, &self.partials, scalars);
        unite_all(&mut self.partials, scalars);
    }

    /// Runs an element of an Ordered loop on the owners' cells and the variables; its fault, where it
    /// has one.
    pub fn element(
        &mut self,
        run: &KernelRun<'_>,
        windows: &OwnedWindows<'_>,
        room: &mut KernelRoom,
    ) -> Option<KernelFault>
        requires takes { Takes run.now.program.now run.now.item run.now.element (length run.now.constants.now)
            (total_all windows.now.spans.now + length windows.now.indices.now) }
        requires kernels { HasKernelRoom run.now.program.now.locals room.old }
        requires inside { Within_all self.old.memories windows.now.spans.now }
        requires reads { InLength (length self.old.variables) windows.now.indices.now }
        requires room { total_all windows.now.spans.now + length windows.now.indices.now ≤ self.old.frames.stride }
        ensures fault { result
            ≡ fault_of ((layout_in run.now.program.now).core run.now.item run.now.element run.now.constants.now
            (all_windows windows.now.spans.now windows.now.indices.now self.old)) }
        ensures state { self.new
            ≡ left_in windows.now.spans.now windows.now.indices.now
            ((layout_in run.now.program.now).core run.now.item run.now.element run.now.constants.now
            (all_windows windows.now.spans.now windows.now.indices.now self.old)) self.old }
        ensures kernels { HasKernelRoom run.now.program.now.locals room.new }
    {
        run_owned(
            run,
            &mut self.memories,
            &mut self.variables,
            windows,
            &mut self.window,
            room,
        )
    }

    /// Appends the values of cells that a rank owns.
    pub fn push_owned(&self, place: Owned, values: &mut Vec<i32>) -> Result<(), OutOfMemory>
        requires rank { place.rank < length self.now.memories }
        requires inside { place.at + place.dim ≤ length (row self.now.memories place.rank) }
        ensures { OnOk result (values.new.items ≡ values.old.items ++ cells_at place.at place.dim (row self.now.memories place.rank)) }
    {
        let memory = &self.memories[place.rank as usize];
        values.extend_from_slice(&memory[place.at..place.at + place.dim])?;
        Ok(())
    }

    /// Prints the values of a dat.
    pub fn print(
        &mut self,
        file: &Text,
        mesh: &Mesh,
        dat: u32,
        values: &[i32],
    ) -> Result<(), OutOfMemory>
        requires dat { dat < dat_count mesh.now }
        requires values { length values.now ≡ set_size mesh.now (dat_set mesh.now dat) * dat_dim mesh.now dat }
        ensures others { self.new ≡ record self.old { output = self.new.output } }
        ensures printed { OnOk result (self.new.output ≡ self.old.output ++ printed_dat file.now mesh.now dat values.now) }
    {
        print_dat(&mut self.output, file, mesh, dat, values)?;
        Ok(())
    }

    /// Prints the values of a dat, which are those of cells that a rank owns.
    pub fn print_owned(
        &mut self,
        file: &Text,
        mesh: &Mesh,
        dat: u32,
        place: Owned,
    ) -> Result<(), OutOfMemory>
        requires dat { dat < dat_count mesh.now }
        requires rank { place.rank < length self.old.memories }
        requires inside { place.at + place.dim ≤ length (row self.old.memories place.rank) }
        requires values { place.dim ≡ set_size mesh.now (dat_set mesh.now dat) * dat_dim mesh.now dat }
        ensures others { self.new ≡ record self.old { output = self.new.output } }
        ensures printed { OnOk result (self.new.output ≡ self.old.output
            ++ printed_dat file.now mesh.now dat (cells_at place.at place.dim (row self.old.memories place.rank))) }
    {
        let memory = &self.memories[place.rank as usize];
        let values = &memory[place.at..place.at + place.dim];
        print_dat(&mut self.output, file, mesh, dat, values)?;
        Ok(())
    }

    /// Does a statement of `main` that is no loop and prints no dat, up to its first fault.
    pub fn act(
        &mut self,
        alloc: Global,
        known: &Variables<'_>,
        act: &ToldAct,
    ) -> Result<Result<(), KernelFault>, OutOfMemory>
        requires begins { Begins known.now }
        requires fits { ActFits (program_of known.now) (told_act_of act.now) }
        requires cells { length self.old.variables ≡ memory_length (program_of known.now) }
        ensures others { self.new ≡ record self.old { variables = self.new.variables; output = self.new.output } }
        ensures ends { IfOk result (λ r. (s : Store) → Holds (program_of known.now) self.old.variables s
            → ActEnds (program_of known.now) self.new.variables s self.old.output self.new.output r
            (act_run (program_of known.now) s (told_act_of act.now))) }
    {
        run_act(alloc, known, act, &mut self.variables, &mut self.output)
    }
}

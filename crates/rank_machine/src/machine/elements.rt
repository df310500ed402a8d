// The elements of loops on the machine: begun and ended, or both at once.

ghost use Rattle.std.specs.Prelude.{◌≡◌, ◌≢◌, [], ℕ, ◌+◌, ◌<◌, ◌≤◌, ◌^◌, length, slice_index_or, take};
ghost use Rattle.kernel_model.specs.declared.types.faults.KernelFault.{KernelFault};
ghost use Rattle.schedule_model.specs.Layout.{Leaves};
ghost use Rattle.rank_state.specs.Spans.{Within, total};
ghost use Rattle.rank_state.specs.Windows.{Reads, Merges};
ghost use Rattle.rank_state.specs.Frames.{Shut, pane_at, Enough, Exactly};
ghost use Rattle.rank_state.specs.Machine.{row, begun_as, ended, windows_of};
ghost use Rattle.rank_state.specs.Shows.{Sized};
ghost use Rattle.rank_program.specs.Rooms.{HasKernelRoom, HasRoomOf};
ghost use Rattle.rank_program.specs.AloneRuns.{AllBegin, Share, Reaches, share_of, with_share};
ghost use Rattle.rank_program.specs.Sound.{Takes, setup_in, layout_in, tables_in};

use crate::machine::Machine;
use crate::running::{Cells, run_in};
use crate::windows::{Begun, KernelRun, Windows};
use kernel_runs::worker_batches::Workers;
use par_exec::{Gate, ItemGate};
use rank_program::{KernelRoom, RankElements, Room, Runnable, run_places};
use rank_state::rank_memory::ending::Ending;
use rank_state::rank_memory::loading::load;
use rank_state::rank_memory::stop::least;
use rank_state::{Scalar, Span};
use std::marker::Sync;
use std::thread::Threads;

// How many cells the spans have.
fn cells(spans: &[Span]) -> usize
    requires { total spans.now < 2 ^ 64 }
    ensures { result ≡ total spans.now }
{
    let mut count = 0;
    for span in spans {
        count += span.dim;
    }
    count
}

impl Machine {
    /// Runs an element's kernel in a frame of its own.
    pub fn begin(
        &mut self,
        program: &Runnable<'_>,
        constants: &[i32],
        element: Begun,
        windows: &Windows<'_>,
        room: &mut KernelRoom,
    )
        requires takes { Takes program.now element.item element.original (length constants.now)
            (total windows.now.spans.now + length windows.now.scalars.now) }
        requires kernels { HasKernelRoom program.now.locals room.old }
        requires rank { element.rank < length self.old.memories }
        requires frames { element.rank < length self.old.frames.panes }
        requires place { element.place < length (slice_index_or self.old.frames.panes element.rank []) }
        requires shut { pane_at self.old.frames.panes element.rank element.place ≡ Shut }
        requires room { 0 < self.old.frames.left }
        requires inside { Within (length (row self.old.memories element.rank)) windows.now.spans.now }
        requires reads { Reads (length self.old.variables) windows.now.scalars.now }
        requires fits { total windows.now.spans.now + length windows.now.scalars.now ≤ self.old.frames.stride }
        ensures state { self.new
            ≡ begun_as element.item element.rank element.place element.original
            ((layout_in program.now).core element.item element.original constants.now
            (windows_of self.old element.rank windows.now.spans.now windows.now.scalars.now)) self.old }
        ensures kernels { HasKernelRoom program.now.locals room.new }
    {
        let Begun {
            item,
            rank,
            place,
            original,
        } = element;
        let run = KernelRun {
            program,
            item,
            element: original,
            constants,
        };
        let cells = Cells {
            memory: &self.memories[rank as usize],
            variables: &self.variables,
        };
        match run_in(&run, &cells, windows, &mut self.window, room) {
            Ok(count) => self.frames.open(item, rank, place, &self.window[..count]),
            Err(fault) => {
                self.frames.open_broken(item, rank, place, fault);
                self.fault = least(self.fault, item, original, Some(fault));
            }
        }
    }

    /// Copies an element's windows into as many cells from the front of `window` on, and answers how many they are.
    pub fn load(&self, rank: u32, spans: &[Span], scalars: &[Scalar], window: &mut [i32]) -> usize
        requires rank { rank < length self.now.memories }
        requires inside { Within (length (row self.now.memories rank)) spans.now }
        requires reads { Reads (length self.now.variables) scalars.now }
        requires room { total spans.now + length scalars.now ≤ length window.old }
        ensures count { result ≡ total spans.now + length scalars.now }
        ensures cells { take (total spans.now + length scalars.now) window.new ≡ windows_of self.now rank spans.now scalars.now }
    {
        load(
            &self.memories[rank as usize],
            spans,
            &self.variables,
            scalars,
            window,
        )
    }

    /// Opens an element's frame with what its kernel left of its windows.
    pub fn open(&mut self, item: u32, rank: u32, place: u32, cells: &[i32])
        requires frames { rank < length self.old.frames.panes }
        requires place { place < length (slice_index_or self.old.frames.panes rank []) }
        requires shut { pane_at self.old.frames.panes rank place ≡ Shut }
        requires room { 0 < self.old.frames.left }
        requires fits { length cells.now ≤ self.old.frames.stride }
        ensures { (e : ℕ) → self.new ≡ begun_as item rank place e (Leaves cells.now) self.old }
    {
        self.frames.open(item, rank, place, cells);
    }

    /// Runs the kernel for the elements at the places, one after another, and puts back at once what each leaves. No
    /// frame is opened for them. The gate is told of them, which says of which item and rank they are. `room` has the
    /// values of all constants.
    pub fn in_place<R: Threads + Sync, G: Gate + Sync>(
        &mut self,
        threads: &R,
        program: &Runnable<'_>,
        told: &ItemGate<'_, G>,
        places: &[u32],
        room: &mut Room,
    )
        requires some { 0 < length places.now }
        requires steps { AllBegin (setup_in program.now) (layout_in program.now) (tables_in program.now)
            told.now.item told.now.rank places.now }
        requires sized { Sized (setup_in program.now) (layout_in program.now) (tables_in program.now) self.old }
        requires space { HasRoomOf program.now room.old }
        ensures runs { (new : Share KernelFault)
            × Reaches (setup_in program.now) (layout_in program.now) (tables_in program.now) told.now.item told.now.rank
            room.old.constants.items self.old.variables places.now (share_of told.now.rank self.old) (length places.now) new
            × (self.new ≡ with_share told.now.rank new self.old) }
        ensures space { HasRoomOf program.now room.new }
    {
        let rank = told.rank;
        let elements = RankElements {
            program,
            item: told.item,
            rank,
            places,
            variables: &self.variables,
        };
        let fault = run_places(
            &Workers {
                threads,
                count: 1,
                told,
            },
            &elements,
            &mut self.memories[rank as usize],
            &mut self.partials[rank as usize],
            self.fault,
            room,
        );
        self.fault = fault;
    }

    /// Copies an element's frame back, and merges its amounts where the element is owned.
    pub fn end(&mut self, own: bool, rank: u32, place: u32, windows: &Windows<'_>)
        requires rank { rank < length self.old.memories }
        requires partials { rank < length self.old.partials }
        requires frames { rank < length self.old.frames.panes }
        requires place { place < length (slice_index_or self.old.frames.panes rank []) }
        requires open { pane_at self.old.frames.panes rank place ≢ Shut }
        requires inside { Within (length (row self.old.memories rank)) windows.now.spans.now }
        requires slots { Merges (length (row self.old.partials rank)) windows.now.scalars.now }
        requires small { total windows.now.spans.now < 2 ^ 64 }
        requires enough { Enough (total windows.now.spans.now) (pane_at self.old.frames.panes rank place) }
        requires exact { Exactly (total windows.now.spans.now + length windows.now.scalars.now) (pane_at self.old.frames.panes rank place) }
        ensures { self.new ≡ ended own rank place windows.now.spans.now windows.now.scalars.now self.old }
    {
        let skip = cells(windows.spans);
        let ending = Ending {
            own,
            spans: windows.spans,
            scalars: windows.scalars,
            skip,
        };
        self.frames.end(
            rank,
            place,
            &ending,
            &mut self.memories[rank as usize],
            &mut self.partials[rank as usize],
        );
    }
}

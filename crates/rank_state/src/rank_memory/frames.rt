// The open frames, in the slots of one staging buffer.

ghost use Rattle.std.specs.Prelude.{◌≡◌, ◌≢◌, [], ◌+◌, ◌-◌, ◌<◌, ◌≤◌, ◌*◌, length, map, slice_index_or};
ghost use Rattle.std.specs.Prelude.{vec_len, vec_capacity, IfOk, ◌^◌};
ghost use Rattle.kernel_model.specs.declared.types.faults.KernelFault.{KernelFault};
ghost use Rattle.rank_state.specs.Spans.{Within, total};
ghost use Rattle.rank_state.specs.Windows.{Merges};
ghost use Rattle.rank_state.specs.Machine.{merged_pane};
ghost use Rattle.schedule_model.specs.Layout.{Faults, Leaves};
ghost use Rattle.rank_state.specs.Frames.{Panes, Shut, pane_at, opened, shut, closed, Enough, Exactly, fresh};
ghost use Rattle.rank_state.specs.Slots.{entries, panes_in, Tied};

use crate::rank_memory::ending::Ending;
use crate::rank_memory::slot::{EMPTY, Held, Slot};
use crate::rank_memory::staging::{hold_at, merge_back, put_back};
use crate::rank_memory::table::{all_slots, nothing_open, put_slot, slot_at, take_slot};
use kernel_model::types::KernelFault;
use std::alloc::{AllocError, Global};
use std::marker::Model;

/// The frames of the open elements.
#[derive(Drop)]
pub struct Frames {
    stride: usize,
    staging: Vec<i32>,
    slots: Vec<Slot>,
    // the slots that no element has
    free: Vec<u32>,
    // by rank and element, as the functions of `table` read it
    table: Vec<Vec<u32>>,
}

impl Model for Frames {
    ghost Value = { Panes };

    ghost view = { λ f. record {
      panes = panes_in f.stride
          (entries (map (λ row. row.items) f.table.items)) f.slots.items f.staging.items;
      left = vec_len f.free;
      stride = f.stride;
    } };

    ghost invariant = { λ f. Tied f.stride (entries (map (λ row. row.items) f.table.items)) f.slots.items f.staging.items f.free.items
        × (vec_len f.slots ≤ vec_capacity f.free) × (vec_len f.slots < 2 ^ 32) };
}

impl Frames {
    /// Room for `peak` open elements, of at most `stride` cells each. `shape` says for each rank how many places it
    /// has.
    ///
    /// # Errors
    /// Want of memory, which a `peak` of 2^32 or more is answered by too.
    pub fn new(
        alloc: Global,
        shape: &[usize],
        peak: usize,
        stride: usize,
    ) -> Result<Frames, AllocError>
        requires { peak * stride < 2 ^ 60 }
        ensures { IfOk result (λ f. f ≡ fresh shape.now peak stride) }
    {
        let Ok(count) = u32::try_from(peak) else {
            return Err(AllocError);
        };
        let staging = vec![in alloc; 0; peak * stride]?;
        let slots = vec![in alloc; EMPTY; peak]?;
        let free = all_slots(alloc, count)?;
        let table = nothing_open(alloc, shape)?;
        Ok(Frames {
            stride,
            staging,
            slots,
            free,
            table,
        })
    }

    /// Opens an element's frame, with the cells that its kernel left of its windows.
    pub fn open(&mut self, item: u32, rank: u32, element: u32, cells: &[i32])
        requires rank { rank < length self.old.panes }
        requires element { element < length (slice_index_or self.old.panes rank []) }
        requires shut { pane_at self.old.panes rank element ≡ Shut }
        requires room { 0 < self.old.left }
        requires fits { length cells.now ≤ self.old.stride }
        ensures { self.new ≡ opened {F = KernelFault} item rank element (Leaves cells.now) (self.old.left - 1) self.old }
    {
        let Some(slot) = self.free.pop() else {
            unreachable!()
        };
        let at = slot as usize;
        let held = hold_at(cells, &mut self.staging, at * self.stride, self.stride);
        self.slots[at] = Slot {
            item,
            rank,
            element,
            held,
        };
        put_slot(&mut self.table, rank, element, slot);
    }

    /// Opens the frame of an element whose kernel had a fault.
    pub fn open_broken(&mut self, item: u32, rank: u32, element: u32, fault: KernelFault)
        requires rank { rank < length self.old.panes }
        requires element { element < length (slice_index_or self.old.panes rank []) }
        requires shut { pane_at self.old.panes rank element ≡ Shut }
        requires room { 0 < self.old.left }
        ensures { self.new ≡ opened item rank element (Faults fault) (self.old.left - 1) self.old }
    {
        let Some(slot) = self.free.pop() else {
            unreachable!()
        };
        self.slots[slot as usize] = Slot {
            item,
            rank,
            element,
            held: Held::Fault(fault),
        };
        put_slot(&mut self.table, rank, element, slot);
    }

    /// Shuts an element's frame. What its kernel left in written spans goes back into the memory, and
    /// its amounts go into the partials where the element is owned.
    pub fn end(
        &mut self,
        rank: u32,
        element: u32,
        ending: &Ending<'_>,
        memory: &mut [i32],
        partials: &mut [i32],
    )
        requires rank { rank < length self.old.panes }
        requires element { element < length (slice_index_or self.old.panes rank []) }
        requires open { pane_at self.old.panes rank element ≢ Shut }
        requires inside { Within (length memory.old) ending.now.spans.now }
        requires enough { Enough (total ending.now.spans.now) (pane_at self.old.panes rank element) }
        requires slots { Merges (length partials.old) ending.now.scalars.now }
        requires exact { Exactly (ending.now.skip + length ending.now.scalars.now) (pane_at self.old.panes rank element) }
        ensures shut { self.new ≡ shut rank element self.old }
        ensures memory { memory.new ≡ closed ending.now.spans.now (pane_at self.old.panes rank element) memory.old }
        ensures partials { partials.new
            ≡ merged_pane ending.now.own ending.now.skip ending.now.scalars.now (pane_at self.old.panes rank element) partials.old }
    {
        let Some(slot) = slot_at(&self.table, rank, element) else {
            unreachable!()
        };
        let at = slot as usize;
        put_back(
            self.slots[at].held,
            &self.staging,
            at * self.stride,
            self.stride,
            memory,
            ending.spans,
        );
        merge_back(
            self.slots[at].held,
            ending,
            &self.staging,
            at * self.stride,
            self.stride,
            partials,
        );
        self.slots[at].held = Held::Nothing;
        take_slot(&mut self.table, rank, element);
        self.free.push_reserved(slot);
    }
}

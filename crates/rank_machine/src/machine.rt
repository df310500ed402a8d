// The machine: memories, variables, partials, frames, messages, and the least recorded fault.

ghost use Rattle.std.specs.Prelude.{◌≡◌, ◌<◌, ◌*◌, ◌^◌, All, length, map, IfOk};
ghost use Rattle.rank_state.specs.Starting.{units as united, started};
ghost use Rattle.rank_state.specs.Indices.{values_at, InLength};
ghost use Rattle.rank_state.specs.Spare.{HasSpare};

mod elements;
mod joins;
mod messages;
mod rounds;

use rank_state::Operation;
use rank_state::rank_memory::frames::Frames;
use rank_state::rank_memory::mail::Mail;
use rank_state::rank_memory::owned::gather_values;
use rank_state::rank_memory::scalars::unit;
use rank_state::rank_memory::stop::Stop;
use std::alloc::{AllocError, Global};
use std::marker::Model;

/// What a machine has room for: so many frames, of at most `stride` cells each, and so many cells under way.
#[derive(Clone, Copy, Debug)]
pub struct Sizes {
    pub frames: usize,
    pub mail: usize,
    pub stride: usize,
}

/// The state of all ranks between two steps.
#[derive(Drop)]
pub struct Machine {
    // each with spare capacity for the windows of one element
    memories: Vec<Vec<i32>>,
    variables: Vec<i32>,
    partials: Vec<Vec<i32>>,
    frames: Frames,
    mail: Mail,
    fault: Option<Stop>,
    output: Vec<u8>,
    // room for the windows of one element
    window: Vec<i32>,
}

impl Model for Machine {
    ghost use Rattle.std.specs.Prelude.{◌≡◌, ℕ, map};
    ghost use Rattle.kernel_model.specs.declared.types.faults.KernelFault.{KernelFault};
    ghost use Rattle.rank_state.specs.Machine.{State};

    ghost Value = { State KernelFault };

    ghost use Rattle.rank_state.specs.Stops.{stop_in};
    ghost use Rattle.rank_machine.specs.Machines.{IsMachine};

    ghost view = { λ m. record {
      memories = map (λ v. v.items) m.memories.items;
      variables = m.variables.items;
      partials = map
          (λ v. v.items) m.partials.items;
      frames = m.frames;
      mail = m.mail;
      fault = stop_in m.fault;
      output = m.output.items;
    } };

    ghost invariant = { λ m. IsMachine m.frames.stride m.memories.items m.window };
}

// A unit for each slot.
fn units(alloc: Global, slots: &[Operation]) -> Result<Vec<i32>, AllocError>
    ensures { IfOk result (λ v. v.items ≡ united slots.now) }
{
    let mut row = Vec::with_capacity(alloc, slots.len())?;
    for how in slots {
        row.push(unit(*how))?;
    }
    Ok(row)
}

// The same for each rank.
fn units_of_ranks(
    alloc: Global,
    memories: &[Vec<i32>],
    slots: &[Operation],
) -> Result<Vec<Vec<i32>>, AllocError>
    ensures { IfOk result (λ v. map (λ row. row.items) v.items ≡ map (λ m. united slots.now) memories.now) }
{
    let mut rows = Vec::with_capacity(alloc, memories.len())?;
    for _memory in memories {
        rows.push(units(alloc, slots)?)?;
    }
    Ok(rows)
}

impl Machine {
    /// A machine whose memories and variables hold their first values, with a partial for each slot, and room of these
    /// sizes. Each memory has spare capacity for `sizes.stride` more cells. `places` says for each rank how many places
    /// there may be.
    pub fn new(
        alloc: Global,
        memories: Vec<Vec<i32>>,
        variables: Vec<i32>,
        slots: &[Operation],
        places: &[usize],
        sizes: Sizes,
    ) -> Result<Machine, AllocError>
        requires small { sizes.frames * sizes.stride < 2 ^ 60 }
        requires spare { All (HasSpare sizes.stride) memories.items }
        ensures { IfOk result (λ m. m
            ≡ started (map (λ v. v.items) memories.items) variables.items slots.now places.now sizes.frames sizes.mail sizes.stride) }
    {
        let partials = units_of_ranks(alloc, &memories, slots)?;
        let frames = Frames::new(alloc, places, sizes.frames, sizes.stride)?;
        let mail = Mail::new(alloc, memories.len(), sizes.mail)?;
        let output = Vec::new(alloc);
        let window = vec![in alloc; 0; sizes.stride]?;
        Ok(Machine {
            memories,
            variables,
            partials,
            frames,
            mail,
            fault: None,
            output,
            window,
        })
    }

    /// Copies the variables' cells at the indices into as many cells.
    pub fn read(&self, indices: &[usize], values: &mut [i32])
        requires inside { InLength (length self.now.variables) indices.now }
        requires room { length values.old ≡ length indices.now }
        ensures { values.new ≡ values_at self.now.variables indices.now }
    {
        gather_values(&self.variables, indices, 0, values);
    }

    /// What the machine has printed, and the memories of its ranks. Takes no memory.
    pub fn into_parts(self) -> (Vec<u8>, Vec<Vec<i32>>)
        ensures output { result.0.items ≡ self.output }
        ensures memories { map (λ v. v.items) result.1.items ≡ self.memories }
    {
        (self.output, self.memories)
    }
}

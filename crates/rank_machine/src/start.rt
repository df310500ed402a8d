// The machine before the first step.

ghost use Rattle.std.specs.Prelude.{◌≡◌, ◌<◌, ◌*◌, ◌^◌, All, map, IfOk};
ghost use Rattle.kernel_model.specs.declared.types.faults.KernelFault.{KernelFault};
ghost use Rattle.schedule_model.specs.Flat.{Flat, StartsFlat};
ghost use Rattle.rank_state.specs.Starting.{AreFirst};
ghost use Rattle.rank_state.specs.Spare.{HasSpare};
ghost use Rattle.rank_program.specs.Sound.{setup_in, layout_in, tables_in};
ghost use Rattle.rank_machine.specs.Shown.{ShowsState};

use crate::machine::{Machine, Sizes};
use kernel_model::types::KernelFault;
use rank_program::Runnable;
use std::alloc::{AllocError, Global};

/// A machine that shows the start of the machine on flat buffers, with room for so many frames and
/// for so many cells under way. Each memory has spare capacity for the windows of one element.
pub fn start(
    alloc: Global,
    program: &Runnable<'_>,
    memories: Vec<Vec<i32>>,
    variables: Vec<i32>,
    frames: usize,
    mail: usize,
) -> Result<Machine, AllocError>
    requires first { AreFirst (setup_in program.now) (layout_in program.now) (tables_in program.now)
        (map (λ v. v.items) memories.items) variables.items }
    requires spare { All (HasSpare (tables_in program.now).stride) memories.items }
    requires small { frames * (tables_in program.now).stride < 2 ^ 60 }
    ensures starts { IfOk result
        (λ m. (f : Flat KernelFault) × StartsFlat (setup_in program.now) (layout_in program.now) f
        × ShowsState program.now m f) }
    ensures frames { IfOk result (λ m. m.frames.left ≡ frames) }
    ensures mail { IfOk result (λ m. m.mail.left ≡ mail) }
{
    rank_state::start_shows::<KernelFault>();
    let sizes = Sizes {
        frames,
        mail,
        stride: program.stride(),
    };
    let machine = Machine::new(
        alloc,
        memories,
        variables,
        program.slots(),
        program.places(),
        sizes,
    )?;
    Ok(machine)
}

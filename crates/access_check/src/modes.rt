// The accesses of a kernel's arguments.

ghost use Rattle.std.specs.Prelude.{◌≡◌, ◌≤◌, ◌↔◌, All, IsTrue, length, map};
ghost use Rattle.kernel_model.specs.Obeys.{mode_at};
ghost use Rattle.access_check.specs.Modes.{model_of, AreSmall};

use crate::components::ARGUMENTS;
use op_num::reductions::Access;

/// What a kernel may do to an argument, and how many components its target has.
#[derive(Clone, Copy, Debug, PartialEq, Eq)]
pub struct Mode {
    pub access: Access,
    pub dim: u32,
}

/// Whether the modes are those of a parallel loop: at most 16, each of a dim of at most 64.
pub fn are_small(modes: &[Mode]) -> bool
    ensures { IsTrue result ↔ AreSmall modes.now }
{
    modes.len() <= ARGUMENTS && have_small_dims(modes)
}

fn have_small_dims(modes: &[Mode]) -> bool
    ensures { IsTrue result ↔ All (λ m. m.dim ≤ 64) modes.now }
{
    modes.iter().all(|mode| mode.dim <= 64)
}

/// The mode of an argument. One that is not there is only read, and has no components.
pub fn mode_of(modes: &[Mode], arg: u32) -> Mode
    ensures { model_of result ≡ mode_at (map model_of modes.now) arg }
{
    match modes.get(arg as usize) {
        Some(mode) => *mode,
        None => Mode {
            access: Access::Read,
            dim: 0,
        },
    }
}

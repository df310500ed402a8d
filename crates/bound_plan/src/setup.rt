// What the theorem on schedules asks of a setup.
ghost use Rattle.bound_plan.specs.Laws.{SetupsAreColoured, SetupsAreLawful, SetupsHaveParts};

use crate::given::{kernels_and_frames, meshes_and_items};
use kernel_model::types::KernelFault;

/// A law: items, arguments, halos, messages and colours of the setup are as the theorem asks, each by its own
/// definition.
pub fn setups_have_parts()
    ensures { SetupsHaveParts }
{
    meshes_and_items();
}

/// A law: the colours of a proper plan, whoever chose them, order the elements that a rank executes and that modify a
/// common cell.
pub fn setups_are_coloured()
    ensures { SetupsAreColoured }
{
    setups_have_parts();
    schedule_model::schedule_laws::setup_is_lawful::<KernelFault>();
}

/// A law: a bound program on several ranks with a proper plan, whose loops' kernels obey their modes and that begins
/// with numbers of 32 bits, is lawful.
pub fn setups_are_lawful()
    ensures { SetupsAreLawful }
{
    meshes_and_items();
    kernels_and_frames();
    setups_have_parts();
    schedule_model::schedule_laws::setup_is_lawful::<KernelFault>();
}

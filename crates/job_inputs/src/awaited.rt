// The files that are to be read, in the order in which a job names them.

ghost use Rattle.std.specs.Prelude.{◌≡◌, ◌++◌, OnOk};
ghost use Rattle.job_inputs.specs.Readings.{readings_of};
ghost use Rattle.command_words.specs.Words.{names_from, names_before, names_by, names_in_blocks, names_at};
ghost use Rattle.command_words.specs.Values.{stretch_in, parting_in, blocks_in, schedule_in, input_in};

use crate::kept_files::Kept;
use command_words::{Blocks, Input, Parting, Schedule, Stretch};
use op_num::OutOfMemory;

/// The files that a source and a mesh come from are to be read, behind those that are. An error is want of memory.
pub fn expect_input<'a>(kept: &mut Kept<'a>, input: Input<'a>) -> Result<(), OutOfMemory>
    ensures { OnOk result (kept.new ≡ kept.old ++ readings_of (names_from (input_in input.entry))) }
{
    if let Input::InFiles { source, mesh } = input {
        kept.push(source)?;
        kept.push(mesh)?;
    }
    Ok(())
}

/// The file that tells a state is to be read, if one does. An error is want of memory.
pub fn expect_stretch<'a>(kept: &mut Kept<'a>, stretch: Stretch<'a>) -> Result<(), OutOfMemory>
    ensures { OnOk result (kept.new ≡ kept.old ++ readings_of (names_before (stretch_in stretch.entry))) }
{
    match stretch {
        Stretch::From(name) => kept.push(name),
        _ => Ok(()),
    }
}

/// The file that tells the owners is to be read, if one does. An error is want of memory.
pub fn expect_parting<'a>(kept: &mut Kept<'a>, parting: Parting<'a>) -> Result<(), OutOfMemory>
    ensures { OnOk result (kept.new ≡ kept.old ++ readings_of (names_by (parting_in parting.entry))) }
{
    match parting {
        Parting::ByRule(_) => Ok(()),
        Parting::ByFile(name) => kept.push(name),
    }
}

/// The file that tells the blocks and colours of a plan is to be read, if one does. An error is want of memory.
pub fn expect_blocks<'a>(kept: &mut Kept<'a>, blocks: Blocks<'a>) -> Result<(), OutOfMemory>
    ensures { OnOk result (kept.new ≡ kept.old ++ readings_of (names_in_blocks (blocks_in blocks.entry))) }
{
    match blocks {
        Blocks::OfSize(_) => Ok(()),
        Blocks::AsPlanned(name) => kept.push(name),
    }
}

/// The file that has a schedule is to be read, if one does. An error is want of memory.
pub fn expect_schedule<'a>(kept: &mut Kept<'a>, schedule: Schedule<'a>) -> Result<(), OutOfMemory>
    ensures { OnOk result (kept.new ≡ kept.old ++ readings_of (names_at (schedule_in schedule.entry))) }
{
    match schedule {
        Schedule::Written(name) => kept.push(name),
        _ => Ok(()),
    }
}

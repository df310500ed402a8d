// Orders as lists.
ghost use Rattle.std.specs.Prelude.{◌≡◌, IfOk};
ghost use Rattle.schedule_steps.specs.Standard as order;

use crate::shape::Shape;
use crate::standard_order::Standard;
use crate::stream::Steps;
use op_num::OutOfMemory;
use schedule_steps::Step;
use std::alloc::Global;

/// The steps that are still to come, in a list. An error is want of memory.
pub fn list_of<S: Steps>(alloc: Global, steps: &mut S) -> Result<Vec<Step>, OutOfMemory>
    ensures { IfOk result (λ list. list.items ≡ S.left steps.old) }
{
    let mut list = Vec::new(alloc);
    while let Some(step) = steps.next_step() {
        list.push(step)?;
    }
    Ok(list)
}

/// The standard order of a plan's steps, in a list. An error is want of memory.
pub fn standard<S: Shape>(alloc: Global, shape: &S) -> Result<Vec<Step>, OutOfMemory>
    ensures { IfOk result (λ list. list.items ≡ order.standard (S.outline shape.now) (S.group shape.now)) }
{
    let mut steps = Standard::new(shape);
    let list = list_of(alloc, &mut steps)?;
    Ok(list)
}

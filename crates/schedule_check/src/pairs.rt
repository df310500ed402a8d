// Senders and receivers of an item's messages.
ghost use Rattle.std.specs.Prelude.{◌≡◌, IfOk};
ghost use Rattle.schedule_check.specs.Froms.{froms, tos};

use loop_plan::Pair;
use op_num::OutOfMemory;
use std::alloc::Global;

/// The senders.
pub fn senders(alloc: Global, pairs: &[Pair]) -> Result<Vec<u32>, OutOfMemory>
    ensures { IfOk result (λ v. v.items ≡ froms pairs.now) }
{
    let mut senders = Vec::with_capacity(alloc, pairs.len())?;
    for pair in pairs {
        senders.push(pair.from)?;
    }
    Ok(senders)
}

/// The receivers.
pub fn receivers(alloc: Global, pairs: &[Pair]) -> Result<Vec<u32>, OutOfMemory>
    ensures { IfOk result (λ v. v.items ≡ tos pairs.now) }
{
    let mut receivers = Vec::with_capacity(alloc, pairs.len())?;
    for pair in pairs {
        receivers.push(pair.to)?;
    }
    Ok(receivers)
}

// What a group of begins needs.

ghost use Rattle.std.specs.Prelude.{◌^◌, ◌<◌, IfOk};
ghost use Rattle.rank_exec.specs.Tasks.{HasGroupRoom};

use rank_program::{Targets, Task};
use std::alloc::{AllocError, Global};

/// Room for a group: for its tasks and their targets, and a buffer of windows of `window` cells. What stands there
/// means nothing between two groups.
#[derive(Drop)]
pub struct GroupRoom {
    pub tasks: Vec<Task>,
    pub targets: Vec<Targets>,
    pub staging: Vec<i32>,
    pub window: usize,
}

impl GroupRoom {
    /// Room for `most` begins, whose windows have at most `stride` cells, with locals of at most `locals` cells.
    pub fn new(
        alloc: Global,
        most: usize,
        stride: usize,
        locals: usize,
    ) -> Result<GroupRoom, AllocError>
        requires { stride < 2 ^ 60 }
        ensures { IfOk result (HasGroupRoom most stride locals) }
    {
        let Some(window) = locals.checked_add(stride + 1) else {
            return Err(AllocError);
        };
        let Some(cells) = most.checked_mul(window) else {
            return Err(AllocError);
        };
        Ok(GroupRoom {
            tasks: Vec::with_capacity(alloc, most)?,
            targets: Vec::with_capacity(alloc, most)?,
            staging: vec![in alloc; 0; cells]?,
            window,
        })
    }
}

// How a run of a kernel stops.

use c_tree::Pos;
use op_num::Fault;

/// The first fault of a run: what went wrong, and the place of the operator, or of the name whose index is out.
#[derive(Clone, Copy, PartialEq, Eq, Debug)]
pub struct KernelFault {
    pub kind: Fault,
    pub at: Pos,
}

// A bound program, distributed and planned.

use bound_program::Bound;
use kernel_code::Code;
use local_mesh::{LocalLists, RankMesh};
use loop_plan::Plan;
use mesh_decl::Owners;
use rank_layout::MachineTables;

/// A bound program with its distribution over several ranks and its plan.
#[derive(Drop)]
pub struct DistributedProgram<'a> {
    pub bound: &'a Bound,
    pub owners: &'a Owners,
    /// The local mesh of each rank.
    pub meshes: &'a [RankMesh],
    /// By set, the local numbers of what ranks own, export and import.
    pub lists: &'a [LocalLists],
    pub plan: &'a Plan,
    /// The codes of the program's kernels.
    pub codes: &'a [Code<'a>],
    /// The most cells that the locals of a kernel have.
    pub locals: usize,
    pub tables: MachineTables,
}

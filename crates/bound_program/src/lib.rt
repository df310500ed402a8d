//! Programs bound to a mesh: the sets, maps, dats and variables of a source, its loops with their arguments, and the
//! list of what its `main` does.
//!
//! What every bound program keeps is `Fits`, in `specs/Fits.antt`. Plans, schedules and runs stand on these types
//! alone.
#![tactic(auto)]

mod acts;
mod classes;
mod limits;
mod programs;
pub mod refusals;
mod sites;
pub mod trace;

pub use acts::{Act, Item, ToldAct};
pub use classes::{class_of, is_access};
pub use kernel_model::types::{AssignOp, ElementForm, Name, Pos, RExpr, RKernel};
pub use limits::{
    MAX_ARGUMENTS, MAX_CELLS, MAX_DATS, MAX_DIM, MAX_MAPS, MAX_SETS, MAX_SIZE, MAX_TRACE,
    MAX_WEIGHT,
};
pub use mesh_decl::{Access, Mesh, Via};
pub use op_num::Text;
pub use programs::{Bound, Var};
pub use sites::{Arg, Class, Site};

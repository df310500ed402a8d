//! Programs bound to a mesh: `bind` gives the bound program of a source and the entries of a mesh text, or the first
//! refusal.
//!
//! The text is judged in its order, then `main` is unrolled in the order of execution, then what it prints is weighed.
//! The definition of all three is `bound`, in `specs/Bound.antt`.
#![tactic(auto)]

mod binding;
mod laws;
pub mod main_text;
pub mod source_fits;
mod told;
mod weights;

pub use crate::source_fits::{resolved_names_hold, resolved_sources_are, spelled_entries_fit};
pub use binding::bind;
pub use bound_program::refusals::{BindRefusal, Counted, first_is_answered};
pub use bound_program::trace::{host_value, host_values_are_kernel_values};
pub use bound_program::{
    Access, Act, Arg, AssignOp, Bound, Class, ElementForm, Item, Mesh, Name, Pos, RExpr, RKernel,
    Site, Text, Var, Via, class_of,
};
pub use laws::{
    bound_maps_are_narrow, bound_names_are_names, bound_programs_fit,
    bound_programs_leave_constants, refusals_have_causes,
};

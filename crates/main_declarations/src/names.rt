//! What is declared so far in a source, what its names mean at a place, and the expressions of `main` by these
//! meanings.
mod declared;
mod expressions;
mod kernel_constants;
mod meanings;
mod scopes;
mod shapes;
mod walks;

pub use bound_program::refusals::BindRefusal;
pub use declared::{Declared, changing, unchanging, zeros};
pub use expressions::{
    cells_of, first_token, is_static, judged_static, judged_value, read, resolved,
};
pub use kernel_constants::KernelConstants;
pub use meanings::{dat_of, is_extern_array, known, map_of, or_zero, set_of, values_named};
pub use scopes::{Cells, Meaning, Scope};
pub use shapes::{dat_shape, map_ends, set_size};
pub use walks::{Source, Spot};

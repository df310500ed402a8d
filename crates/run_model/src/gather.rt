//! What a program prints, byte for byte (`print_dat`, `print_line`, `dump`), and the statements of `main` that are no
//! loop, on the cells of all variables (`host_acts`).
mod dats;
mod dumps;
pub mod host_acts;
mod lines;

pub use dats::print_dat;
pub use dumps::dump;
pub use lines::print_line;
pub use mesh_decl::Mesh;
pub use op_num::{OutOfMemory, Text};

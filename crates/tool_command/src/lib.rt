//! A call of `op2-tools`, from its words to its status, over any files, output and error stream.
//!
//! `tools` does what its words say and answers the status. Each call ends as one definition says (`Ends` of
//! `specs/Endings.antt`, over `ToolAnswers` of `specs/ToolAnswers.antt`): with the status, the output and the line of
//! the answer that the words and the files have, want of memory and what fails outside aside. What `op2` refuses keeps
//! its status and its line.
#![tactic(auto)]

mod answered;
mod counts;
pub mod explain;
mod gmsh;
mod gmsh_lines;
mod graphs;
pub mod judged;
mod lines;
mod owners;
mod partitions;
mod picks;
mod pictures;
mod planned;
mod programs;
mod top;

pub use lines::report_usage;
pub use top::tools;

// A whole source: what stands at the level of the file, and `main`.

use crate::declarations::Declaration;
use crate::expressions::{Ident, NumberLiteral};
use crate::hosts::Host;
use crate::kernels::Kernel;
use crate::lexer::Pos;

/// A part of the file before `main`.
#[derive(Drop)]
pub enum Top {
    /// `extern int x;`
    Extern(Ident),
    /// `extern int x[];`
    ExternArray(Ident),
    /// `int x = 1;` or `const int x = 1;`
    Declaration(Declaration),
    /// a kernel
    Kernel(Kernel),
}

/// `int main(int argc, char **argv) { .. op_exit(); return 0; }`, `argv` also as `*argv[]`, `return` also left out;
/// `at` is its `main`, `exit_at` its `op_exit`.
#[derive(Drop)]
pub struct Main {
    pub at: usize,
    pub argv_has_brackets: bool,
    pub body: Vec<Host>,
    pub exit_at: usize,
    pub returned: Option<NumberLiteral>,
}

/// A source. `places` holds the place of each of its tokens, so the token numbered `n` stands at `places[n]`.
#[derive(Drop)]
pub struct Program {
    pub tops: Vec<Top>,
    pub main: Main,
    pub places: Vec<Pos>,
}

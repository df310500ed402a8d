// Kernels and their statements (ISO C 6.8).

use crate::declarations::{Assignment, Declaration};
use crate::expressions::{Expr, Ident, NumberLiteral};

/// `for (int i = 0; i < 4; i++)`: the counter's name three times; `at` is its `for`.
#[derive(Drop)]
pub struct ForHeader {
    pub at: usize,
    pub name: Ident,
    pub from: NumberLiteral,
    pub tested: Ident,
    pub to: NumberLiteral,
    pub stepped: Ident,
}

/// A statement of a kernel.
#[derive(Drop)]
pub enum Stmt {
    /// `int x = 1;`
    Declaration(Declaration),
    /// `{ .. }`; `at` is its `{`
    Block {
        at: usize,
        body: Vec<Stmt>,
    },
    /// `;`, the token numbered here
    Empty(usize),
    /// `x = a;`
    Assign(Assignment),
    /// `if (a) ..` without `else`; `at` is its `if`
    If {
        at: usize,
        condition: Expr,
        then: Box<Stmt>,
    },
    /// `if (a) .. else ..`; `at` is its `if`
    IfElse {
        at: usize,
        condition: Expr,
        then: Box<Stmt>,
        otherwise: Box<Stmt>,
    },
    /// `for (..) ..`
    For {
        header: ForHeader,
        body: Box<Stmt>,
    },
}

/// `int *x` or `const int *x`.
#[derive(Drop)]
pub struct Param {
    pub is_const: bool,
    pub name: Ident,
}

/// `static inline void f(int *x, ..) { .. }`, each of the first two words or not.
#[derive(Drop)]
pub struct Kernel {
    pub is_static: bool,
    pub is_inline: bool,
    pub name: Ident,
    pub params: Vec<Param>,
    pub body: Vec<Stmt>,
}

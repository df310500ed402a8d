// The statements of `main`, with the calls of the OP2 library.

use crate::declarations::{Assignment, Declaration};
use crate::expressions::{Expr, Ident, NumberLiteral, TextLiteral};

/// A variable that a loop or a constant takes: `x`, or `&x` with the number of its `&`.
#[derive(Drop)]
pub struct GlobalName {
    pub ampersand: Option<usize>,
    pub name: Ident,
}

/// The word by which an argument says how a kernel uses it.
#[derive(Clone, Copy, PartialEq, Eq, Debug)]
pub enum AccessWord {
    /// `OP_READ`
    Read,
    /// `OP_WRITE`
    Write,
    /// `OP_RW`
    Rw,
    /// `OP_INC`
    Inc,
    /// `OP_MIN`
    Min,
    /// `OP_MAX`
    Max,
}

/// The index of an argument into its map: a number, behind `-` or not; `at` is its first token.
#[derive(Clone, Copy, PartialEq, Eq, Debug)]
pub struct ArgIndex {
    pub is_negative: bool,
    pub at: usize,
    pub value: i32,
}

/// What an argument's index goes through.
#[derive(Drop)]
pub enum ArgVia {
    /// a map's name
    Map(Ident),
    /// `OP_ID`, the token numbered here
    Identity(usize),
}

/// An argument of a loop.
#[derive(Drop)]
pub enum LoopArg {
    /// `op_arg_dat(dat, index, via, dim, "type", access)`; `at` is its first word
    Dat {
        at: usize,
        dat: Ident,
        index: ArgIndex,
        via: ArgVia,
        dim: NumberLiteral,
        type_text: TextLiteral,
        access: AccessWord,
        access_at: usize,
    },
    /// `op_arg_gbl(global, dim, "type", access)`; `at` is its first word
    Global {
        at: usize,
        global: GlobalName,
        dim: NumberLiteral,
        type_text: TextLiteral,
        access: AccessWord,
        access_at: usize,
    },
}

/// `for (int i = a; i < b; i++)`: the counter's name three times; `at` is its `for`.
#[derive(Drop)]
pub struct HostForHeader {
    pub at: usize,
    pub name: Ident,
    pub from: Expr,
    pub tested: Ident,
    pub to: Expr,
    pub stepped: Ident,
}

/// A call of the OP2 library; `at` is the word of the call.
#[derive(Drop)]
pub enum OpCall {
    /// `op_init(argc, argv, level);`
    Init {
        at: usize,
        level: NumberLiteral,
    },
    /// `op_set name = op_decl_set(size, "label");`
    DeclSet {
        at: usize,
        name: Ident,
        size: Expr,
        label: TextLiteral,
    },
    /// `op_map name = op_decl_map(from, to, dim, values, "label");`
    DeclMap {
        at: usize,
        name: Ident,
        from: Ident,
        to: Ident,
        dim: NumberLiteral,
        values: Ident,
        label: TextLiteral,
    },
    /// `op_dat name = op_decl_dat(set, dim, "type", values, "label");`
    DeclDat {
        at: usize,
        name: Ident,
        set: Ident,
        dim: NumberLiteral,
        type_text: TextLiteral,
        values: Ident,
        label: TextLiteral,
    },
    /// `op_decl_const(dim, "type", variable);`
    DeclConst {
        at: usize,
        dim: NumberLiteral,
        type_text: TextLiteral,
        variable: GlobalName,
    },
    /// `op_par_loop(kernel, "label", set, arguments ..);`
    ParLoop {
        at: usize,
        kernel: Ident,
        label: TextLiteral,
        set: Ident,
        args: Vec<LoopArg>,
    },
    /// `op_printf("text", values ..);`
    Printf {
        at: usize,
        text: TextLiteral,
        values: Vec<Expr>,
    },
    /// `op_print_dat_to_txtfile(dat, "file");`
    PrintDat {
        at: usize,
        dat: Ident,
        file: TextLiteral,
    },
}

/// A statement of `main`.
#[derive(Drop)]
pub enum Host {
    /// `int x = 1;` or `const int x = 1;`
    Declaration(Declaration),
    /// `{ .. }`; `at` is its `{`
    Block {
        at: usize,
        body: Vec<Host>,
    },
    /// `;`, the token numbered here
    Empty(usize),
    /// `x = a;`
    Assign(Assignment),
    /// `if (a) ..` without `else`; `at` is its `if`
    If {
        at: usize,
        condition: Expr,
        then: Box<Host>,
    },
    /// `if (a) .. else ..`; `at` is its `if`
    IfElse {
        at: usize,
        condition: Expr,
        then: Box<Host>,
        otherwise: Box<Host>,
    },
    /// `for (..) ..`
    For {
        header: HostForHeader,
        body: Box<Host>,
    },
    /// a call of the library
    Call(OpCall),
}

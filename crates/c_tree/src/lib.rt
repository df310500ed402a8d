//! The tokens of a source; its trees, for every form of the language; and, as definitions, the tokens that a tree prints.
#![tactic(auto)]

mod declarations;
mod expressions;
mod hosts;
mod kernels;
pub mod lexer;
mod places;
mod programs;
mod refusals;

pub use crate::lexer::{Kind, LexRefusal, Name, Pos, Sign, Text, Token, Word, end_place, lex};
pub use declarations::{AssignOp, Assignment, Declaration, Declr, Place};
pub use expressions::{BinaryOp, Expr, Ident, MinMax, NumberLiteral, TextLiteral, UnaryOp};
pub use hosts::{AccessWord, ArgIndex, ArgVia, GlobalName, Host, HostForHeader, LoopArg, OpCall};
pub use kernels::{ForHeader, Kernel, Param, Stmt};
pub use places::{numbers_have_places, places_grow, pos_of};
pub use programs::{Main, Program, Top};
pub use refusals::SourceRefusal;

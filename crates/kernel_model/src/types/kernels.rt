// Kernels, and the constants that they read.

use crate::types::statements::RStmt;
use c_tree::{Name, Pos};

/// The body of a kernel, and the place of the name of each of its parameters, in order.
#[derive(Drop)]
pub struct RBody {
    pub param_places: Vec<Pos>,
    pub statement: RStmt,
}

/// A kernel: its name, how many parameters it takes, how many cells its locals have, and its body.
#[derive(Drop)]
pub struct RKernel {
    pub name: Name,
    pub params: u32,
    pub scratch: u32,
    pub body: RBody,
}

/// A constant that kernels read: its `count` cells stand from the cell `from` on among all constants.
#[derive(Drop)]
pub struct ConstDecl {
    pub name: Name,
    pub from: u32,
    pub count: u32,
}

/// The kernels of a program and its constants, in the order of the source.
#[derive(Drop)]
pub struct Resolved {
    pub kernels: Vec<RKernel>,
    pub consts: Vec<ConstDecl>,
}

// Statements of kernels: the rules that they break, and what they mean.

ghost use Rattle.std.specs.Prelude.{◌≡◌, ◌≤◌, true, map, IfOk};
ghost use Rattle.c_tree.specs.Tree as tree;
ghost use Rattle.c_tree.specs.View.{expr_of, declr_of, assignment_of, place_of, stmt_of, stmts_of};
ghost use Rattle.name_resolution.specs.First.{least_from};
ghost use Rattle.name_resolution.specs.Scopes.{scope, repeated};
ghost use Rattle.name_resolution.specs.Numbers.{ExprFits, StmtFits, RowFits};
ghost use Rattle.kernel_model.specs.View.{rexpr_of, rstmt_of, rstmts_of, Block};
ghost use Rattle.name_resolution.specs.Work.{declr_cells, declrs_cells, cells, cells_of_all, behind};
ghost use Rattle.name_resolution.specs.Kernels.{value, expr_breaches, with_counter, place_breaches, assignment_breaches, local_decl};
ghost use Rattle.name_resolution.specs.Kernels.{set_element, assigned, declr_breaches, declrs_breaches, stmt_breaches, stmts_breaches};
ghost use Rattle.name_resolution.specs.Kernels.{after_declr, after_declrs, after_stmt, after_stmts, declr_step, declrs_steps, step, steps};

use crate::assignments::{assigned, judge_assignment};
use crate::breaches::{Breach, TypeRule, note_if};
use crate::decls::{Decl, Scope, Sort, declare};
use crate::expressions::{judge_expr, value};
use crate::work::{behind, declr_cells, size_of};
use c_tree::{AssignOp, Declr, Expr, ForHeader, Pos, Stmt, pos_of};
use indexmap::IndexMap;
use kernel_model::types::{RExpr, RStmt};
use op_num::{Name, OutOfMemory};
use std::alloc::Global;

/// What going through a kernel has come to: its own names, its next cell, and the first breach.
#[derive(Drop)]
pub struct Walk {
    pub own: IndexMap<Name, Decl>,
    pub next: u32,
    pub first: Option<Breach>,
}

// The declaration of a name of a kernel.
fn local_decl(sort: Sort, at: usize, from: u32, count: u32) -> Decl
    ensures { result ≡ local_decl sort at from count }
{
    Decl {
        at,
        sort,
        is_const: false,
        of_file: false,
        is_constant: false,
        from,
        count,
    }
}

// A declarator.
#[tactic(auto, using(crate::proofs::Firsts::least_append))]
fn declr_step(
    alloc: Global,
    places: &[Pos],
    file: &IndexMap<Name, Decl>,
    walk: &mut Walk,
    declr: &Declr,
) -> Result<RStmt, OutOfMemory>
    ensures fits { IfOk result (λ s. StmtFits (rstmt_of s)) }
    ensures step { IfOk result (λ s.
        rstmt_of s ≡ declr_step places.now file.now.entries walk.old.own.entries walk.old.next (declr_of declr.now)) }
    ensures first { IfOk result (λ _.
        walk.new.first ≡ least_from walk.old.first
        (declr_breaches file.now.entries walk.old.own.entries (declr_of declr.now))) }
    ensures own { IfOk result (λ _. walk.new.own.entries ≡ after_declr walk.old.own.entries walk.old.next (declr_of declr.now)) }
    ensures next { IfOk result (λ _. walk.new.next ≡ behind walk.old.next (declr_cells (declr_of declr.now))) }
{
    let from = walk.next;
    walk.next = behind(from, declr_cells(declr));
    match declr {
        Declr::Plain(name) => {
            let decl = local_decl(Sort::Scalar, name.at, from, 1);
            declare(&mut walk.own, &mut walk.first, name, decl)?;
            Ok(RStmt::Declare { from, count: 1 })
        }
        Declr::Init { name, value: start } => {
            let known = Scope {
                file,
                own: &walk.own,
            };
            judge_expr(&mut walk.first, known, true, start);
            let start = value(alloc, places, known, start)?;
            let decl = local_decl(Sort::Scalar, name.at, from, 1);
            declare(&mut walk.own, &mut walk.first, name, decl)?;
            Ok(RStmt::SetScalar {
                cell: from,
                op: AssignOp::Set,
                op_at: pos_of(places, name.at),
                value: start,
            })
        }
        Declr::Array { name, length } => {
            let count = size_of(*length);
            note_if(&mut walk.first, count == 0, TypeRule::TooMuchWork, name.at);
            let decl = local_decl(Sort::Array, name.at, from, count);
            declare(&mut walk.own, &mut walk.first, name, decl)?;
            Ok(RStmt::Declare { from, count })
        }
    }
}

// Declarators, in the order of the text.
fn declrs_steps(
    alloc: Global,
    places: &[Pos],
    file: &IndexMap<Name, Decl>,
    walk: &mut Walk,
    declrs: &[Declr],
) -> Result<Vec<RStmt>, OutOfMemory>
    requires { walk.old.next ≤ 1024 }
    ensures fits { IfOk result (λ v. RowFits (rstmts_of v.items)) }
    ensures steps { IfOk result (λ v.
        rstmts_of v.items ≡ declrs_steps places.now file.now.entries walk.old.own.entries walk.old.next
        (map declr_of declrs.now)) }
    ensures first { IfOk result (λ _.
        walk.new.first ≡ least_from walk.old.first
        (declrs_breaches file.now.entries walk.old.own.entries walk.old.next (map declr_of declrs.now))) }
    ensures own { IfOk result (λ _. walk.new.own.entries ≡ after_declrs walk.old.own.entries walk.old.next (map declr_of declrs.now)) }
    ensures next { IfOk result (λ _. walk.new.next ≡ behind walk.old.next (declrs_cells (map declr_of declrs.now))) }
{
    let mut steps = Vec::new(alloc);
    for declr in declrs {
        let step = declr_step(alloc, places, file, walk, declr)?;
        steps.push(step)?;
    }
    Ok(steps)
}

/// Statements in order.
pub fn block(steps: Vec<RStmt>) -> RStmt
    requires { RowFits (rstmts_of steps.items) }
    ensures value { rstmt_of result ≡ Block (rstmts_of steps.items) }
    ensures fits { StmtFits (rstmt_of result) }
{
    RStmt::Block(steps)
}

// Declares the counter of a `for`.
fn declare_counter(walk: &mut Walk, header: &ForHeader) -> Result<(), OutOfMemory>
    ensures first { IfOk result (λ _. walk.new.first ≡ least_from walk.old.first (repeated header.now.name walk.old.own.entries)) }
    ensures own { IfOk result (λ _. walk.new.own.entries ≡ with_counter walk.old.own.entries walk.old.next header.now) }
    ensures next { IfOk result (λ _. walk.new.next ≡ behind walk.old.next 1) }
{
    let decl = local_decl(Sort::Counter, header.name.at, walk.next, 1);
    walk.next = behind(walk.next, 1);
    declare(&mut walk.own, &mut walk.first, &header.name, decl)
}

// A statement.
#[tactic(auto, using(crate::proofs::Firsts::least_append))]
#[cycle(steps)]
fn step(
    alloc: Global,
    places: &[Pos],
    file: &IndexMap<Name, Decl>,
    walk: &mut Walk,
    stmt: &Stmt,
) -> Result<RStmt, OutOfMemory>
    requires { walk.old.next ≤ 1024 }
    ensures fits { IfOk result (λ s. StmtFits (rstmt_of s)) }
    ensures step { IfOk result (λ s. rstmt_of s ≡ step places.now file.now.entries walk.old.own.entries walk.old.next (stmt_of stmt.now)) }
    ensures first { IfOk result (λ _.
        walk.new.first ≡ least_from walk.old.first
        (stmt_breaches file.now.entries walk.old.own.entries walk.old.next (stmt_of stmt.now))) }
    ensures own { IfOk result (λ _. walk.new.own.entries ≡ after_stmt walk.old.own.entries walk.old.next (stmt_of stmt.now)) }
    ensures next { IfOk result (λ _. walk.new.next ≡ behind walk.old.next (cells (stmt_of stmt.now))) }
{
    match stmt {
        Stmt::Declaration(declaration) => {
            let steps = declrs_steps(alloc, places, file, walk, &declaration.declrs)?;
            Ok(block(steps))
        }
        Stmt::Block { body, .. } => inner_block(alloc, places, file, walk, body),
        Stmt::Empty(_) => Ok(block(Vec::new(alloc))),
        Stmt::Assign(assignment) => {
            let known = Scope {
                file,
                own: &walk.own,
            };
            judge_assignment(&mut walk.first, known, true, false, assignment);
            assigned(alloc, places, known, assignment)
        }
        Stmt::If {
            condition,
            then,
            ..
        } => {
            let condition = condition_value(alloc, places, file, walk, condition)?;
            let then = inner_step(alloc, places, file, walk, then)?;
            let otherwise = Box::new(alloc, block(Vec::new(alloc)))?;
            Ok(RStmt::If {
                condition,
                then,
                otherwise,
            })
        }
        Stmt::IfElse {
            condition,
            then,
            otherwise,
            ..
        } => {
            let condition = condition_value(alloc, places, file, walk, condition)?;
            let then = inner_step(alloc, places, file, walk, then)?;
            let otherwise = inner_step(alloc, places, file, walk, otherwise)?;
            Ok(RStmt::If {
                condition,
                then,
                otherwise,
            })
        }
        Stmt::For { header, body } => for_step(alloc, places, file, walk, header, body),
    }
}

// A block, whose names end with it.
#[cycle(steps)]
fn inner_block(
    alloc: Global,
    places: &[Pos],
    file: &IndexMap<Name, Decl>,
    walk: &mut Walk,
    body: &[Stmt],
) -> Result<RStmt, OutOfMemory>
    requires { walk.old.next ≤ 1024 }
    ensures fits { IfOk result (λ s. StmtFits (rstmt_of s)) }
    ensures step { IfOk result (λ s.
        rstmt_of s ≡ Block (steps places.now file.now.entries walk.old.own.entries walk.old.next (stmts_of body.now))) }
    ensures first { IfOk result (λ _.
        walk.new.first ≡ least_from walk.old.first
        (stmts_breaches file.now.entries walk.old.own.entries walk.old.next (stmts_of body.now))) }
    ensures own { IfOk result (λ _. walk.new.own.entries ≡ walk.old.own.entries) }
    ensures next { IfOk result (λ _. walk.new.next ≡ behind walk.old.next (cells_of_all (stmts_of body.now))) }
{
    let known = walk.own.len();
    let steps = steps(alloc, places, file, walk, body)?;
    walk.own.truncate(known);
    Ok(block(steps))
}

// A `for`, whose counter ends with it.
#[tactic(auto, using(crate::proofs::Firsts::least_append))]
#[cycle(steps)]
fn for_step(
    alloc: Global,
    places: &[Pos],
    file: &IndexMap<Name, Decl>,
    walk: &mut Walk,
    header: &ForHeader,
    body: &Stmt,
) -> Result<RStmt, OutOfMemory>
    requires { walk.old.next ≤ 1024 }
    ensures fits { IfOk result (λ s. StmtFits (rstmt_of s)) }
    ensures step { IfOk result (λ s.
        rstmt_of s ≡ step places.now file.now.entries walk.old.own.entries walk.old.next (tree.For header.now (stmt_of body.now))) }
    ensures first { IfOk result (λ _.
        walk.new.first ≡ least_from walk.old.first
        (stmt_breaches file.now.entries walk.old.own.entries walk.old.next (tree.For header.now (stmt_of body.now)))) }
    ensures own { IfOk result (λ _. walk.new.own.entries ≡ walk.old.own.entries) }
    ensures next { IfOk result (λ _. walk.new.next ≡ behind walk.old.next (cells (tree.For header.now (stmt_of body.now)))) }
{
    let counter = walk.next;
    let known = walk.own.len();
    declare_counter(walk, header)?;
    let body = inner_step(alloc, places, file, walk, body)?;
    walk.own.truncate(known);
    Ok(RStmt::For {
        counter,
        first: size_of(header.from),
        past: size_of(header.to),
        body,
    })
}

// The condition of an `if`.
fn condition_value(
    alloc: Global,
    places: &[Pos],
    file: &IndexMap<Name, Decl>,
    walk: &mut Walk,
    condition: &Expr,
) -> Result<RExpr, OutOfMemory>
    ensures fits { IfOk result (λ r. ExprFits (rexpr_of r)) }
    ensures value { IfOk result (λ r. rexpr_of r ≡ value places.now (scope file.now.entries walk.old.own.entries) (expr_of condition.now)) }
    ensures first { IfOk result (λ _.
        walk.new.first ≡ least_from walk.old.first
        (expr_breaches true (scope file.now.entries walk.old.own.entries) (expr_of condition.now))) }
    ensures own { IfOk result (λ _. walk.new.own.entries ≡ walk.old.own.entries) }
    ensures next { IfOk result (λ _. walk.new.next ≡ walk.old.next) }
{
    let known = Scope {
        file,
        own: &walk.own,
    };
    judge_expr(&mut walk.first, known, true, condition);
    value(alloc, places, known, condition)
}

// A statement whose names end with it, in a box.
#[cycle(steps)]
fn inner_step(
    alloc: Global,
    places: &[Pos],
    file: &IndexMap<Name, Decl>,
    walk: &mut Walk,
    stmt: &Stmt,
) -> Result<Box<RStmt>, OutOfMemory>
    requires { walk.old.next ≤ 1024 }
    ensures fits { IfOk result (λ s. StmtFits (rstmt_of s.value)) }
    ensures step { IfOk result (λ s.
        rstmt_of s.value ≡ step places.now file.now.entries walk.old.own.entries walk.old.next (stmt_of stmt.now)) }
    ensures first { IfOk result (λ _.
        walk.new.first ≡ least_from walk.old.first
        (stmt_breaches file.now.entries walk.old.own.entries walk.old.next (stmt_of stmt.now))) }
    ensures own { IfOk result (λ _. walk.new.own.entries ≡ walk.old.own.entries) }
    ensures next { IfOk result (λ _. walk.new.next ≡ behind walk.old.next (cells (stmt_of stmt.now))) }
{
    let known = walk.own.len();
    let step = step(alloc, places, file, walk, stmt)?;
    walk.own.truncate(known);
    Ok(Box::new(alloc, step)?)
}

/// Statements, in the order of the text.
#[cycle(steps)]
pub fn steps(
    alloc: Global,
    places: &[Pos],
    file: &IndexMap<Name, Decl>,
    walk: &mut Walk,
    stmts: &[Stmt],
) -> Result<Vec<RStmt>, OutOfMemory>
    requires { walk.old.next ≤ 1024 }
    ensures fits { IfOk result (λ v. RowFits (rstmts_of v.items)) }
    ensures steps { IfOk result (λ v.
        rstmts_of v.items ≡ steps places.now file.now.entries walk.old.own.entries walk.old.next (stmts_of stmts.now)) }
    ensures first { IfOk result (λ _.
        walk.new.first ≡ least_from walk.old.first
        (stmts_breaches file.now.entries walk.old.own.entries walk.old.next (stmts_of stmts.now))) }
    ensures own { IfOk result (λ _. walk.new.own.entries ≡ after_stmts walk.old.own.entries walk.old.next (stmts_of stmts.now)) }
    ensures next { IfOk result (λ _. walk.new.next ≡ behind walk.old.next (cells_of_all (stmts_of stmts.now))) }
{
    let mut steps = Vec::new(alloc);
    for stmt in stmts {
        let step = step(alloc, places, file, walk, stmt)?;
        steps.push(step)?;
    }
    Ok(steps)
}

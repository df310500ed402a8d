// What declarations, assignments and the statements of kernels print, put into a list that is made from its end.

ghost use Rattle.std.specs.Prelude.{◌≡◌, IfOk, reverse, map};
ghost use Rattle.c_tree.specs.Signs.{assign_sign_of};
ghost use Rattle.c_tree.specs.View.{expr_of, declr_of, declaration_of, place_of, assignment_of, stmt_of, stmts_of};
ghost use Rattle.c_show.specs.Ahead.{word_first_if, declr_first, declrs_first, more_declrs_first, declaration_first, place_first};
ghost use Rattle.c_show.specs.Ahead.{assignment_first, condition_first, header_first, stmt_first, stmts_first};

use crate::put_expressions::{put_deref, put_enclosed, put_expr, put_indexed};
use crate::put_tokens::{put_name, put_number, put_sign, put_word};
use c_tree::lexer::{Kind, Sign, Word};
use c_tree::{AssignOp, Assignment, Declaration, Declr, Expr, ForHeader, Place, Stmt};
use op_num::OutOfMemory;

/// Puts a reserved word where the test holds.
pub fn put_word_if(out: &mut Vec<Kind>, test: bool, word: Word) -> Result<(), OutOfMemory>
    ensures { IfOk result (λ _. reverse out.new.items ≡ word_first_if test word (reverse out.old.items)) }
{
    if test { put_word(out, word) } else { Ok(()) }
}

// Puts a declarator.
fn put_declr(out: &mut Vec<Kind>, declr: &Declr) -> Result<(), OutOfMemory>
    ensures { IfOk result (λ _. reverse out.new.items ≡ declr_first (declr_of declr.now) (reverse out.old.items)) }
{
    match declr {
        Declr::Plain(name) => put_name(out, name),
        Declr::Init { name, value } => {
            put_expr(out, value)?;
            put_sign(out, Sign::Assign)?;
            put_name(out, name)
        }
        Declr::Array { name, length } => {
            put_sign(out, Sign::RightBracket)?;
            put_number(out, *length)?;
            put_sign(out, Sign::LeftBracket)?;
            put_name(out, name)
        }
    }
}

// Puts declarators, each behind a comma.
fn put_more_declrs(out: &mut Vec<Kind>, declrs: &[Declr]) -> Result<(), OutOfMemory>
    ensures { IfOk result (λ _. reverse out.new.items ≡ more_declrs_first (map declr_of declrs.now) (reverse out.old.items)) }
{
    for i in (0..declrs.len()).rev() {
        put_declr(out, &declrs[i])?;
        put_sign(out, Sign::Comma)?;
    }
    Ok(())
}

// Puts declarators with a comma between each two.
fn put_declrs(out: &mut Vec<Kind>, declrs: &[Declr]) -> Result<(), OutOfMemory>
    ensures { IfOk result (λ _. reverse out.new.items ≡ declrs_first (map declr_of declrs.now) (reverse out.old.items)) }
{
    match declrs {
        [first, more @ ..] => {
            put_more_declrs(out, more)?;
            put_declr(out, first)
        }
        [] => Ok(()),
    }
}

/// Puts a declaration.
pub fn put_declaration(out: &mut Vec<Kind>, declaration: &Declaration) -> Result<(), OutOfMemory>
    ensures { IfOk result (λ _. reverse out.new.items ≡ declaration_first (declaration_of declaration.now) (reverse out.old.items)) }
{
    put_sign(out, Sign::Semicolon)?;
    put_declrs(out, &declaration.declrs)?;
    put_word(out, Word::Int)?;
    put_word_if(out, declaration.is_const, Word::Const)
}

// The sign of an assignment.
fn assign_sign(op: AssignOp) -> Sign
    ensures { result ≡ assign_sign_of op }
{
    match op {
        AssignOp::Set => Sign::Assign,
        AssignOp::Add => Sign::AddAssign,
        AssignOp::Sub => Sign::SubAssign,
        AssignOp::Mul => Sign::MulAssign,
        AssignOp::Div => Sign::DivAssign,
        AssignOp::Rem => Sign::RemAssign,
        AssignOp::ShiftLeft => Sign::ShlAssign,
        AssignOp::ShiftRight => Sign::ShrAssign,
        AssignOp::BitAnd => Sign::AndAssign,
        AssignOp::BitOr => Sign::OrAssign,
        AssignOp::BitXor => Sign::XorAssign,
    }
}

// Puts the target of an assignment.
fn put_place(out: &mut Vec<Kind>, place: &Place) -> Result<(), OutOfMemory>
    ensures { IfOk result (λ _. reverse out.new.items ≡ place_first (place_of place.now) (reverse out.old.items)) }
{
    match place {
        Place::Name(name) => put_name(out, name),
        Place::Index { name, index } => put_indexed(out, name, index),
        Place::Deref { name, .. } => put_deref(out, name),
    }
}

/// Puts an assignment.
pub fn put_assignment(out: &mut Vec<Kind>, assignment: &Assignment) -> Result<(), OutOfMemory>
    ensures { IfOk result (λ _. reverse out.new.items ≡ assignment_first (assignment_of assignment.now) (reverse out.old.items)) }
{
    put_sign(out, Sign::Semicolon)?;
    put_expr(out, &assignment.value)?;
    put_sign(out, assign_sign(assignment.op))?;
    put_place(out, &assignment.place)
}

/// Puts `if (a)`.
pub fn put_condition(out: &mut Vec<Kind>, condition: &Expr) -> Result<(), OutOfMemory>
    ensures { IfOk result (λ _. reverse out.new.items ≡ condition_first (expr_of condition.now) (reverse out.old.items)) }
{
    put_enclosed(out, condition)?;
    put_word(out, Word::If)
}

// Puts the head of a `for`.
fn put_header(out: &mut Vec<Kind>, header: &ForHeader) -> Result<(), OutOfMemory>
    ensures { IfOk result (λ _. reverse out.new.items ≡ header_first header.now (reverse out.old.items)) }
{
    put_sign(out, Sign::RightParen)?;
    put_sign(out, Sign::PlusPlus)?;
    put_name(out, &header.stepped)?;
    put_sign(out, Sign::Semicolon)?;
    put_number(out, header.to)?;
    put_sign(out, Sign::Less)?;
    put_name(out, &header.tested)?;
    put_sign(out, Sign::Semicolon)?;
    put_number(out, header.from)?;
    put_sign(out, Sign::Assign)?;
    put_name(out, &header.name)?;
    put_word(out, Word::Int)?;
    put_sign(out, Sign::LeftParen)?;
    put_word(out, Word::For)
}

/// Puts a statement of a kernel.
#[cycle(statements)]
pub fn put_stmt(out: &mut Vec<Kind>, stmt: &Stmt) -> Result<(), OutOfMemory>
    ensures { IfOk result (λ _. reverse out.new.items ≡ stmt_first (stmt_of stmt.now) (reverse out.old.items)) }
{
    match stmt {
        Stmt::Declaration(declaration) => put_declaration(out, declaration),
        Stmt::Block { body, .. } => {
            put_sign(out, Sign::RightBrace)?;
            put_stmts(out, body)?;
            put_sign(out, Sign::LeftBrace)
        }
        Stmt::Empty(_) => put_sign(out, Sign::Semicolon),
        Stmt::Assign(assignment) => put_assignment(out, assignment),
        Stmt::If {
            condition,
            then,
            ..
        } => {
            put_stmt(out, then)?;
            put_condition(out, condition)
        }
        Stmt::IfElse {
            condition,
            then,
            otherwise,
            ..
        } => {
            put_stmt(out, otherwise)?;
            put_word(out, Word::Else)?;
            put_stmt(out, then)?;
            put_condition(out, condition)
        }
        Stmt::For { header, body } => {
            put_stmt(out, body)?;
            put_header(out, header)
        }
    }
}

/// Puts statements of a kernel.
#[cycle(statements)]
pub fn put_stmts(out: &mut Vec<Kind>, stmts: &[Stmt]) -> Result<(), OutOfMemory>
    ensures { IfOk result (λ _. reverse out.new.items ≡ stmts_first (stmts_of stmts.now) (reverse out.old.items)) }
{
    for i in (0..stmts.len()).rev() {
        put_stmt(out, &stmts[i])?;
    }
    Ok(())
}

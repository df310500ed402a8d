// What the statements of `main` print, put into a list that is made from its end.

ghost use Rattle.std.specs.Prelude.{◌≡◌, IfOk, reverse};
ghost use Rattle.c_tree.specs.View.{host_for_header_of, host_of, hosts_of, main_of};
ghost use Rattle.c_show.specs.Ahead.{host_header_first, host_first, hosts_first, argv_first, return_first, exit_first, main_front};
ghost use Rattle.c_show.specs.Ahead.{main_first};

use crate::put_calls::put_call;
use crate::put_expressions::put_expr;
use crate::put_statements::{put_assignment, put_condition, put_declaration};
use crate::put_tokens::{put_name, put_number, put_sign, put_word};
use c_tree::lexer::{Kind, Sign, Word};
use c_tree::{Host, HostForHeader, Main, NumberLiteral};
use op_num::OutOfMemory;

// Puts the head of a `for`.
fn put_host_header(out: &mut Vec<Kind>, header: &HostForHeader) -> Result<(), OutOfMemory>
    ensures { IfOk result (λ _. reverse out.new.items ≡ host_header_first (host_for_header_of header.now) (reverse out.old.items)) }
{
    put_sign(out, Sign::RightParen)?;
    put_sign(out, Sign::PlusPlus)?;
    put_name(out, &header.stepped)?;
    put_sign(out, Sign::Semicolon)?;
    put_expr(out, &header.to)?;
    put_sign(out, Sign::Less)?;
    put_name(out, &header.tested)?;
    put_sign(out, Sign::Semicolon)?;
    put_expr(out, &header.from)?;
    put_sign(out, Sign::Assign)?;
    put_name(out, &header.name)?;
    put_word(out, Word::Int)?;
    put_sign(out, Sign::LeftParen)?;
    put_word(out, Word::For)
}

// Puts a statement of `main`.
#[cycle(hosts)]
fn put_host(out: &mut Vec<Kind>, host: &Host) -> Result<(), OutOfMemory>
    ensures { IfOk result (λ _. reverse out.new.items ≡ host_first (host_of host.now) (reverse out.old.items)) }
{
    match host {
        Host::Declaration(declaration) => put_declaration(out, declaration),
        Host::Block { body, .. } => {
            put_sign(out, Sign::RightBrace)?;
            put_hosts(out, body)?;
            put_sign(out, Sign::LeftBrace)
        }
        Host::Empty(_) => put_sign(out, Sign::Semicolon),
        Host::Assign(assignment) => put_assignment(out, assignment),
        Host::If {
            condition,
            then,
            ..
        } => {
            put_host(out, then)?;
            put_condition(out, condition)
        }
        Host::IfElse {
            condition,
            then,
            otherwise,
            ..
        } => {
            put_host(out, otherwise)?;
            put_word(out, Word::Else)?;
            put_host(out, then)?;
            put_condition(out, condition)
        }
        Host::For { header, body } => {
            put_host(out, body)?;
            put_host_header(out, header)
        }
        Host::Call(call) => put_call(out, call),
    }
}

// Puts statements of `main`.
#[cycle(hosts)]
fn put_hosts(out: &mut Vec<Kind>, hosts: &[Host]) -> Result<(), OutOfMemory>
    ensures { IfOk result (λ _. reverse out.new.items ≡ hosts_first (hosts_of hosts.now) (reverse out.old.items)) }
{
    for i in (0..hosts.len()).rev() {
        put_host(out, &hosts[i])?;
    }
    Ok(())
}

// Puts `return 0;`, where it stands.
fn put_return(out: &mut Vec<Kind>, returned: Option<NumberLiteral>) -> Result<(), OutOfMemory>
    ensures { IfOk result (λ _. reverse out.new.items ≡ return_first returned (reverse out.old.items)) }
{
    match returned {
        Some(number) => {
            put_sign(out, Sign::Semicolon)?;
            put_number(out, number)?;
            put_word(out, Word::Return)
        }
        None => Ok(()),
    }
}

// Puts `op_exit(); return 0; }`.
fn put_exit(out: &mut Vec<Kind>, returned: Option<NumberLiteral>) -> Result<(), OutOfMemory>
    ensures { IfOk result (λ _. reverse out.new.items ≡ exit_first returned (reverse out.old.items)) }
{
    put_sign(out, Sign::RightBrace)?;
    put_return(out, returned)?;
    put_sign(out, Sign::Semicolon)?;
    put_sign(out, Sign::RightParen)?;
    put_sign(out, Sign::LeftParen)?;
    put_word(out, Word::OpExit)
}

// Puts `**argv` or `*argv[]`.
fn put_argv(out: &mut Vec<Kind>, has_brackets: bool) -> Result<(), OutOfMemory>
    ensures { IfOk result (λ _. reverse out.new.items ≡ argv_first has_brackets (reverse out.old.items)) }
{
    if has_brackets {
        put_sign(out, Sign::RightBracket)?;
        put_sign(out, Sign::LeftBracket)?;
        put_word(out, Word::Argv)?;
        put_sign(out, Sign::Star)
    } else {
        put_word(out, Word::Argv)?;
        put_sign(out, Sign::Star)?;
        put_sign(out, Sign::Star)
    }
}

// Puts `int main(int argc, char **argv) {`.
fn put_main_front(out: &mut Vec<Kind>, has_brackets: bool) -> Result<(), OutOfMemory>
    ensures { IfOk result (λ _. reverse out.new.items ≡ main_front has_brackets (reverse out.old.items)) }
{
    put_sign(out, Sign::LeftBrace)?;
    put_sign(out, Sign::RightParen)?;
    put_argv(out, has_brackets)?;
    put_word(out, Word::Char)?;
    put_sign(out, Sign::Comma)?;
    put_word(out, Word::Argc)?;
    put_word(out, Word::Int)?;
    put_sign(out, Sign::LeftParen)?;
    put_word(out, Word::Main)?;
    put_word(out, Word::Int)
}

/// Puts `main`.
pub fn put_main(out: &mut Vec<Kind>, main: &Main) -> Result<(), OutOfMemory>
    ensures { IfOk result (λ _. reverse out.new.items ≡ main_first (main_of main.now) (reverse out.old.items)) }
{
    put_exit(out, main.returned)?;
    put_hosts(out, &main.body)?;
    put_main_front(out, main.argv_has_brackets)
}

// The translation of a source.

ghost use Rattle.std.specs.Prelude.{◌≡◌, ◌++◌, Ok, OnOk};
ghost use Rattle.c_tree.specs.Lexed.{Lexes};
ghost use Rattle.c_tree.specs.View.{program_of};
ghost use Rattle.c_tree.specs.Reads.{Reads};
ghost use Rattle.op_translate.specs.Translation.{Outcome, Translates, ends_line, line_end, first_refusal, refuses_stub};
ghost use Rattle.op_translate.specs.Answered.{Answers, refused_by};

use crate::edits::{Form, put_edited};
use crate::laws::one_translation;
use crate::names::is_stub;
use crate::refusals::TransRefusal;
use crate::table::put_table;
use c_tree::Program;
use c_tree::lexer::{Kind, Token};
use op_num::OutOfMemory;
use std::alloc::Global;

/// The source whose tokens and tree these are, with each call of a loop a call of its own stub: from `op_par_loop` up
/// to the comma behind the kernel K stands `op_par_loop_K(`. Behind it come a LF, unless the source ends with one, and
/// the table of the stubs as comments (docs/LANGUAGE.md). `NameTaken` comes exactly where a name of the source begins
/// with `op_par_loop_`, `OutOfMemory` only where memory runs out.
pub fn translate(
    alloc: Global,
    bytes: &[u8],
    tokens: &[Token],
    program: &Program,
) -> Result<Vec<u8>, TransRefusal>
    requires lexed { Lexes bytes.now (Ok tokens.now) }
    requires read { Reads bytes.now (program_of program.now) }
    // What is answered is the translation or its refusal,
    ensures found { Answers (Translates bytes.now (program_of program.now)) result }
    // and that is what is answered, unless memory runs out.
    ensures only { (o : Outcome) → Translates bytes.now (program_of program.now) o → Answers (λ x. x ≡ o) result }
{
    one_translation();
    translated(alloc, bytes, tokens, program)
}

// The translation, or its refusal.
fn translated(
    alloc: Global,
    bytes: &[u8],
    tokens: &[Token],
    program: &Program,
) -> Result<Vec<u8>, TransRefusal>
    requires lexed { Lexes bytes.now (Ok tokens.now) }
    requires read { Reads bytes.now (program_of program.now) }
    ensures { Answers (Translates bytes.now (program_of program.now)) result }
{
    check_names(tokens)?;
    let mut out = Vec::new(alloc);
    put_edited(&mut out, bytes, tokens, Form::Stub)?;
    put_line_end(&mut out, bytes)?;
    put_table(alloc, &mut out, &program.main.body)?;
    Ok(out)
}

// That no name begins as those of stubs do.
fn check_names(tokens: &[Token]) -> Result<(), TransRefusal>
    ensures { result ≡ refused_by (first_refusal refuses_stub tokens.now) }
{
    for token in tokens {
        match &token.kind {
            Kind::Name(name) => {
                if is_stub(name.bytes()) {
                    return Err(TransRefusal::NameTaken { at: token.at });
                }
            }
            _ => {}
        }
    }
    Ok(())
}

// Puts a LF, unless the bytes end with one.
fn put_line_end(out: &mut Vec<u8>, bytes: &[u8]) -> Result<(), OutOfMemory>
    ensures { OnOk result (out.new.items ≡ out.old.items ++ line_end bytes.now) }
{
    if ends_line(bytes) {
        Ok(())
    } else {
        out.extend_from_slice(b"\n")
    }
}

// Whether the last byte is a LF.
fn ends_line(bytes: &[u8]) -> bool
    ensures { result ≡ ends_line bytes.now }
{
    if bytes.is_empty() {
        return false;
    }
    bytes[bytes.len() - 1] == b'\n'
}

// The restoration of a translated source.

ghost use Rattle.std.specs.Prelude.{◌≡◌, ◌+◌, ◌<◌, ◌^◌, length};
ghost use Rattle.op_translate.specs.Translation.{Outcome, Restores, first_refusal, refuses_call};
ghost use Rattle.op_translate.specs.Answered.{Answers, refused_by};

use crate::edits::{Form, put_edited, stub_at};
use crate::laws::one_restoration;
use crate::names::is_stub;
use crate::refusals::TransRefusal;
use c_tree::lexer::{Kind, Token, Word, lex};
use std::alloc::Global;

/// The bytes with each call of a stub a call of `op_par_loop` again: from the name `op_par_loop_K` up to the `(` behind
/// it stands `op_par_loop(K,`. A table of stubs stays, as the comments that it is. The bytes are to be fewer than 2 ^
/// 32 - 2, as for `lex`. `Lex` comes exactly where `lex` refuses the bytes; else the first token counts that is a name
/// that begins with `op_par_loop_` but is no called stub of a name (`NoCall`), or is `op_par_loop` (`LoopLeft`).
/// `OutOfMemory` comes only where memory runs out.
pub fn restore(alloc: Global, bytes: &[u8]) -> Result<Vec<u8>, TransRefusal>
    requires { length bytes.now + 2 < 2 ^ 32 }
    // What is answered is the restoration or its refusal,
    ensures found { Answers (Restores bytes.now) result }
    // and that is what is answered, unless memory runs out.
    ensures only { (o : Outcome) → Restores bytes.now o → Answers (λ x. x ≡ o) result }
{
    one_restoration();
    restored(alloc, bytes)
}

// The restoration, or its refusal.
fn restored(alloc: Global, bytes: &[u8]) -> Result<Vec<u8>, TransRefusal>
    requires { length bytes.now + 2 < 2 ^ 32 }
    ensures { Answers (Restores bytes.now) result }
{
    let tokens = lex(alloc, bytes)?;
    check_calls(&tokens)?;
    let mut out = Vec::new(alloc);
    put_edited(&mut out, bytes, &tokens, Form::Call)?;
    Ok(out)
}

// That each name of a stub is called and names a kernel, and that no `op_par_loop` is left.
fn check_calls(tokens: &[Token]) -> Result<(), TransRefusal>
    ensures { result ≡ refused_by (first_refusal refuses_call tokens.now) }
{
    for i in 0..tokens.len() {
        if let Some(refusal) = refusal_at(&tokens[i..]) {
            return Err(refusal);
        }
    }
    Ok(())
}

// Why the first token isn't restored, if it isn't.
fn refusal_at(tokens: &[Token]) -> Option<TransRefusal>
    ensures { result ≡ refuses_call tokens.now }
{
    let [token, ..] = tokens else { return None };
    match &token.kind {
        Kind::Word(Word::OpParLoop) => Some(TransRefusal::LoopLeft { at: token.at }),
        Kind::Name(name) => {
            if is_stub(name.bytes()) && stub_at(tokens).is_none() {
                Some(TransRefusal::NoCall { at: token.at })
            } else {
                None
            }
        }
        _ => None,
    }
}

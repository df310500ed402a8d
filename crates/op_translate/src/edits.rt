// The stretches of a source that are calls of loops, and the bytes with another call in the place of each.

ghost use Rattle.std.specs.Prelude.{◌≡◌, ◌++◌, length, option_map, OnOk};
ghost use Rattle.op_translate.specs.declared.edits.Form.TheVariants as form;
ghost use Rattle.op_translate.specs.Answered.{edit_of, begun, call_text};
ghost use Rattle.op_translate.specs.Edits.{edited, edits, LieWithin};
ghost use Rattle.op_translate.specs.Translation.{to_stub, to_call};

use crate::names::kernel_of;
use c_tree::lexer::{Kind, Sign, Token, Word};
use op_num::OutOfMemory;

/// What the calls of loops become.
#[derive(Clone, Copy, PartialEq, Eq, Debug)]
pub enum Form {
    /// `op_par_loop_K(`, for `op_par_loop(K,`
    Stub,
    /// `op_par_loop(K,`, for `op_par_loop_K(`
    Call,
}

/// A stretch of the bytes from one place up to another, and the kernel that the call there names.
#[derive(Drop)]
pub struct Stretch<'a> {
    pub from: usize,
    pub to: usize,
    pub kernel: &'a [u8],
}

/// Puts the bytes, in which each call is replaced by one of this form.
pub fn put_edited(
    out: &mut Vec<u8>,
    bytes: &[u8],
    tokens: &[Token],
    form: Form,
) -> Result<(), OutOfMemory>
    requires { LieWithin 0 (length bytes.now) (edits (begun form) tokens.now) }
    ensures { OnOk result (out.new.items ≡ out.old.items ++ edited 0 bytes.now (edits (begun form) tokens.now)) }
{
    let mut from = 0;
    for i in 0..tokens.len() {
        if let Some(stretch) = stretch_at(&tokens[i..], form) {
            out.extend_from_slice(&bytes[from..stretch.from])?;
            put_call(out, stretch.kernel, form)?;
            from = stretch.to;
        }
    }
    out.extend_from_slice(&bytes[from..])
}

// The stretch that begins with the first token, if one does.
fn stretch_at(tokens: &[Token], form: Form) -> Option<Stretch<'_>>
    ensures { option_map (edit_of form) result ≡ begun form tokens.now }
{
    match form {
        Form::Stub => call_at(tokens),
        Form::Call => stub_at(tokens),
    }
}

// The `op_par_loop(K,` that begins with the first token, if one does.
fn call_at(tokens: &[Token]) -> Option<Stretch<'_>>
    ensures { option_map (edit_of form.Stub) result ≡ to_stub tokens.now }
{
    match tokens {
        [call, open, name, comma, ..] => {
            match (&call.kind, &open.kind, &name.kind, &comma.kind) {
                (
                    Kind::Word(Word::OpParLoop),
                    Kind::Sign(Sign::LeftParen),
                    Kind::Name(kernel),
                    Kind::Sign(Sign::Comma),
                ) => Some(Stretch {
                    from: call.from,
                    to: comma.to,
                    kernel: kernel.bytes(),
                }),
                _ => None,
            }
        }
        _ => None,
    }
}

/// The `op_par_loop_K(` that begins with the first token, if one does.
pub fn stub_at(tokens: &[Token]) -> Option<Stretch<'_>>
    ensures { option_map (edit_of form.Call) result ≡ to_call tokens.now }
{
    match tokens {
        [name, open, ..] => match (&name.kind, &open.kind) {
            (Kind::Name(stub), Kind::Sign(Sign::LeftParen)) => Some(Stretch {
                from: name.from,
                to: open.to,
                kernel: kernel_of(stub.bytes())?,
            }),
            _ => None,
        },
        _ => None,
    }
}

// Puts the call of a kernel's loop.
fn put_call(out: &mut Vec<u8>, kernel: &[u8], form: Form) -> Result<(), OutOfMemory>
    ensures { OnOk result (out.new.items ≡ out.old.items ++ call_text form kernel.now) }
{
    let (opening, closing) = match form {
        Form::Stub => (&b"op_par_loop_"[..], b"("),
        Form::Call => (&b"op_par_loop("[..], b","),
    };
    out.extend_from_slice(opening)?;
    out.extend_from_slice(kernel)?;
    out.extend_from_slice(closing)
}

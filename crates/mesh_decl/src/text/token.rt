// Tokens that are words of the format.
ghost use Rattle.std.specs.Prelude.{◌≡◌, codes};
ghost use Rattle.std.specs.List.{list_all};
ghost use Rattle.mesh_decl.specs.Token.{is_c_name, letter, part, keyword_of, version_of, is_magic as magic};

use crate::text::entry::Form;

/// A word that stands where an entry is awaited.
#[derive(Clone, Copy, Debug, PartialEq, Eq)]
pub enum Keyword {
    Int,
    Ints,
    Done,
}

/// Whether the token is the first one of every mesh file.
pub fn is_magic(text: &[u8]) -> bool
    ensures { result ≡ magic text.now }
{
    text == magic_word()
}

fn magic_word() -> &'static [u8]
    ensures { result.now ≡ codes "op2mesh" }
{
    b"op2mesh"
}

/// The version that a token names.
pub fn read_version(text: &[u8]) -> Option<Form>
    ensures { result ≡ version_of text.now }
{
    match text {
        [b'1'] => Some(Form::One),
        [b'2'] => Some(Form::Two),
        _ => None,
    }
}

/// The word of the format that the token is, if any.
pub fn read_keyword(text: &[u8]) -> Option<Keyword>
    ensures { result ≡ keyword_of text.now }
{
    if text == int_word() {
        Some(Keyword::Int)
    } else if text == ints_word() {
        Some(Keyword::Ints)
    } else if text == done_word() {
        Some(Keyword::Done)
    } else {
        None
    }
}

fn int_word() -> &'static [u8]
    ensures { result.now ≡ codes "int" }
{
    b"int"
}

fn ints_word() -> &'static [u8]
    ensures { result.now ≡ codes "ints" }
{
    b"ints"
}

fn done_word() -> &'static [u8]
    ensures { result.now ≡ codes "done" }
{
    b"done"
}

/// Whether the token is a C name, which may be a reserved word.
#[tactic(auto, using(crate::proofs::text::Names::names))]
pub fn is_name(text: &[u8]) -> bool
    ensures { result ≡ is_c_name text.now }
{
    if text.is_empty() {
        return false;
    }
    is_letter(text[0]) && are_parts(text.split_at(1).1)
}

fn are_parts(text: &[u8]) -> bool
    ensures { result ≡ list_all part text.now }
{
    text.iter().all(|b| is_part(*b))
}

fn is_letter(b: u8) -> bool
    ensures { result ≡ letter b }
{
    (b'a' <= b && b <= b'z') || (b'A' <= b && b <= b'Z') || b == b'_'
}

fn is_part(b: u8) -> bool
    ensures { result ≡ part b }
{
    is_letter(b) || (b'0' <= b && b <= b'9')
}

// The head of a text, and the words of its sections.
ghost use Rattle.std.specs.Prelude.{◌≡◌, codes};
ghost use Rattle.op_num.specs.Automaton.{onto};
ghost use Rattle.gmsh_text.specs.Parsing.{IsRead};
ghost use Rattle.gmsh_text.specs.Sections.{format, section, section_of, version_of, text_mark, wanted};
ghost use Rattle.gmsh_text.specs.Reading.{blocks};

use crate::numbers::{next_token, read_number, read_word};
use crate::refusal::TextRefusal;
use op_num::texts::{Token, Tokens};

// A version of the format.
#[derive(Clone, Copy, Debug, PartialEq, Eq)]
pub(crate) enum Version {
    Two,
    Four,
}

// A section that is read.
#[derive(Clone, Copy, Debug, PartialEq, Eq)]
pub(crate) enum Section {
    Entities,
    Nodes,
    Elements,
}

// The section with the version, which comes first.
#[tactic(auto, unfolding(crate::specs::Sections::format))]
pub(crate) fn read_format(tokens: &mut Tokens<'_>) -> Result<Version, TextRefusal>
    ensures { IsRead result tokens.new (format tokens.old) }
{
    let magic = next_token(tokens)?;
    if magic.text() != magic_word() {
        return Err(TextRefusal::Header { line: magic.line() });
    }
    let version = version_of_token(&next_token(tokens)?)?;
    check_text_mark(&next_token(tokens)?)?;
    read_number(tokens, 4294967296)?;
    read_word(tokens, format_end())?;
    Ok(version)
}

// The version that a token names.
fn version_of_token(token: &Token<'_>) -> Result<Version, TextRefusal>
    ensures { result ≡ version_of token.now }
{
    if token.text() == version_two() {
        Ok(Version::Two)
    } else if token.text() == version_four() {
        Ok(Version::Four)
    } else {
        Err(TextRefusal::Version { line: token.line() })
    }
}

// Whether a token says that the file is a text.
fn check_text_mark(token: &Token<'_>) -> Result<(), TextRefusal>
    ensures { result ≡ onto (text_mark token.now) (λ w. tt) }
{
    if token.text() == binary_mark() {
        return Err(TextRefusal::Binary { line: token.line() });
    }
    if token.text() != plain_mark() {
        return Err(TextRefusal::Syntax { line: token.line() });
    }
    Ok(())
}

// Version 4.1: how many blocks; three numbers behind it are passed over.
#[tactic(auto, unfolding(crate::specs::Reading::blocks))]
pub(crate) fn read_block_count(tokens: &mut Tokens<'_>) -> Result<u32, TextRefusal>
    ensures { IsRead result tokens.new (blocks tokens.old) }
{
    let count = read_number(tokens, 4294967296)?;
    read_number(tokens, 4294967296)?;
    read_number(tokens, 4294967296)?;
    read_number(tokens, 4294967296)?;
    Ok(count)
}

// The first section that is read, whatever stands before it.
pub(crate) fn next_section(tokens: &mut Tokens<'_>) -> Result<Section, TextRefusal>
    ensures { IsRead result tokens.new (section tokens.old) }
{
    while let Some(token) = tokens.next() {
        if let Some(section) = section_of_word(token.text()) {
            return Ok(section);
        }
    }
    Err(TextRefusal::Syntax {
        line: tokens.last(),
    })
}

// The elements, which are the next section.
#[tactic(auto, unfolding(crate::specs::Sections::wanted))]
pub(crate) fn seek_elements(tokens: &mut Tokens<'_>) -> Result<Section, TextRefusal>
    ensures { IsRead result tokens.new (wanted tokens.old) }
{
    match next_section(tokens)? {
        Section::Elements => Ok(Section::Elements),
        _ => Err(TextRefusal::Syntax {
            line: tokens.last(),
        }),
    }
}

// The section that begins with a word.
fn section_of_word(text: &[u8]) -> Option<Section>
    ensures { result ≡ section_of text.now }
{
    if text == entities_begin() {
        Some(Section::Entities)
    } else if text == nodes_begin() {
        Some(Section::Nodes)
    } else if text == elements_begin() {
        Some(Section::Elements)
    } else {
        None
    }
}

fn magic_word() -> &'static [u8]
    ensures { result.now ≡ codes "$MeshFormat" }
{
    b"$MeshFormat"
}

fn format_end() -> &'static [u8]
    ensures { result.now ≡ codes "$EndMeshFormat" }
{
    b"$EndMeshFormat"
}

fn version_two() -> &'static [u8]
    ensures { result.now ≡ codes "2.2" }
{
    b"2.2"
}

fn version_four() -> &'static [u8]
    ensures { result.now ≡ codes "4.1" }
{
    b"4.1"
}

fn plain_mark() -> &'static [u8]
    ensures { result.now ≡ codes "0" }
{
    b"0"
}

fn binary_mark() -> &'static [u8]
    ensures { result.now ≡ codes "1" }
{
    b"1"
}

fn entities_begin() -> &'static [u8]
    ensures { result.now ≡ codes "$Entities" }
{
    b"$Entities"
}

fn nodes_begin() -> &'static [u8]
    ensures { result.now ≡ codes "$Nodes" }
{
    b"$Nodes"
}

fn elements_begin() -> &'static [u8]
    ensures { result.now ≡ codes "$Elements" }
{
    b"$Elements"
}

// Reading a text.
ghost use Rattle.std.specs.Prelude.{◌≡◌, ◌+◌, ◌<◌, ◌^◌, ◌⊎◌, ℕ, List, length, Result, Ok, Err, IfOk, IfErr, codes};
ghost use Rattle.op_num.specs.Automaton.{Told};
ghost use Rattle.gmsh_text.specs.declared.refusal.TextRefusal.TheVariants as Refusal;
ghost use Rattle.gmsh_text.specs.Groups.{EntityGroups};
ghost use Rattle.gmsh_text.specs.Parsing.{IsGot};
ghost use Rattle.gmsh_text.specs.Reading.{outcome, text, body};
ghost use Rattle.gmsh_text.specs.Whole.{AreWhole};
ghost use Rattle.gmsh_text.specs.declared.read.GmshText.{GmshText as Found};

use crate::elements::read_elements;
use crate::entities::{Entities, read_entities_before};
use crate::format::{Version, read_format, seek_elements};
use crate::nodes::{Nodes, read_nodes};
use crate::numbers::read_word;
use crate::refusal::TextRefusal;
use crate::table::Elements;
use op_num::texts::Tokens;
use std::alloc::Global;

/// What a text of Gmsh has.
#[derive(Debug, Drop)]
pub struct GmshText<'a> {
    pub nodes: Nodes<'a>,
    pub elements: Elements,
}

/// What the text `bytes` has, in version 2.2 or 4.1 of the format of Gmsh's reference manual ("MSH file format"): the
/// nodes in the order of the file, and the elements by type. Coordinates stay the tokens of `bytes`. Sections come in
/// the order of the manual: the format, in version 4.1 the entities where they are given, the nodes, the elements;
/// sections of other names are passed over, and so are the names of physical groups and what stands behind the
/// elements. Version 4.1 gives an element the physical group of its entity. Tags of elements, and in version 4.1 the
/// second number of nodes or elements and the bounds of their tags, are read as numbers alone. Each refusal is that of
/// the first token, in order, that may not stand where it does, or of the end; `TextRefusal` says what each is. Lines
/// are counted in `u32`, so the text has fewer than 2 ^ 32 - 1 bytes.
pub fn read_gmsh<'a>(alloc: Global, bytes: &'a [u8]) -> Result<GmshText<'a>, TextRefusal>
    requires { length bytes.now + 1 < 2 ^ 32 }
    // The text comes to what is given, unless memory runs out.
    ensures { Told Refusal.OutOfMemory result (outcome bytes.now) }
{
    let mut tokens = Tokens::new(bytes);
    read_text(alloc, &mut tokens)
}

#[tactic(auto, unfolding(crate::specs::Reading::text))]
fn read_text<'a>(alloc: Global, tokens: &mut Tokens<'a>) -> Result<GmshText<'a>, TextRefusal>
    ensures { IsGot result tokens.new (text tokens.old) }
{
    let version = read_format(tokens)?;
    let entities = read_entities_before(alloc, tokens)?;
    read_body(alloc, tokens, version, &entities)
}

// The nodes and the elements.
#[tactic(auto, unfolding(crate::specs::Reading::body))]
fn read_body<'a>(
    alloc: Global,
    tokens: &mut Tokens<'a>,
    version: Version,
    entities: &Entities,
) -> Result<GmshText<'a>, TextRefusal>
    ensures { IsGot result tokens.new (body version entities.now tokens.old) }
{
    let nodes = read_nodes(alloc, tokens, version)?;
    read_word(tokens, nodes_end())?;
    seek_elements(tokens)?;
    let elements = read_elements(alloc, tokens, version, entities)?;
    read_word(tokens, elements_end())?;
    Ok(GmshText { nodes, elements })
}

/// A law: a text has whole elements, as many groups of a type as lines, and for each line the nodes of an element of
/// this type.
pub fn elements_are_whole()
    ensures { (bytes : List ℕ) (t : Found) → outcome bytes ≡ Ok t → AreWhole t.elements }
{}

fn nodes_end() -> &'static [u8]
    ensures { result.now ≡ codes "$EndNodes" }
{
    b"$EndNodes"
}

fn elements_end() -> &'static [u8]
    ensures { result.now ≡ codes "$EndElements" }
{
    b"$EndElements"
}

// Elements.
ghost use Rattle.std.specs.Prelude.{◌≡◌};
ghost use Rattle.op_num.specs.Spelling.{number_of};
ghost use Rattle.gmsh_text.specs.Parsing.{IsRead, IsGot, IsMade, repeat};
ghost use Rattle.gmsh_text.specs.Values.{node_count};
ghost use Rattle.gmsh_text.specs.Reading.{kind as kind_of_next, kind_spelled, corner, corners, element_tags, element_2, elements_2};
ghost use Rattle.gmsh_text.specs.Reading.{element_4, element_block, elements_4, elements as elements_of};

use crate::entities::{Entities, Group};
use crate::format::{Version, read_block_count};
use crate::kind::Kind;
use crate::numbers::{next_token, pass_integers, read_integer, read_number, read_tag};
use crate::refusal::TextRefusal;
use crate::table::Elements;
use op_num::texts::{Token, Tokens};
use op_num::{NumRefusal, read_u64};
use std::alloc::Global;

// The elements of a text of this version, whose entities have these groups.
#[tactic(auto, unfolding(crate::specs::Reading::elements))]
pub(crate) fn read_elements(
    alloc: Global,
    tokens: &mut Tokens<'_>,
    version: Version,
    entities: &Entities,
) -> Result<Elements, TextRefusal>
    ensures { IsGot result tokens.new (elements_of version entities.now tokens.old) }
{
    match version {
        Version::Two => read_list(alloc, tokens),
        Version::Four => read_blocks(alloc, tokens, entities),
    }
}

// Version 2.2: how many elements, and the elements.
#[tactic(auto, unfolding(crate::specs::Reading::elements_2))]
fn read_list(alloc: Global, tokens: &mut Tokens<'_>) -> Result<Elements, TextRefusal>
    ensures { IsGot result tokens.new (elements_2 tokens.old) }
{
    let count = read_number(tokens, 4294967296)?;
    let mut elements = Elements::new(alloc);
    for _ in 0..count {
        read_listed(tokens, &mut elements)?;
    }
    Ok(elements)
}

// Version 2.2: an element.
#[tactic(auto, unfolding(crate::specs::Reading::element_2))]
fn read_listed(tokens: &mut Tokens<'_>, elements: &mut Elements) -> Result<(), TextRefusal>
    ensures { IsMade result elements.new tokens.new (element_2 elements.old tokens.old) }
{
    let tag = read_tag(tokens)?;
    let kind = read_kind(tokens)?;
    let count = read_number(tokens, 4294967296)?;
    let group = read_element_tags(tokens, count)?;
    read_corners(tokens, kind, tag.line, group, elements)
}

// Version 2.2: that many tags, of which the first is the physical tag.
#[tactic(auto, unfolding(crate::specs::Reading::element_tags))]
fn read_element_tags(tokens: &mut Tokens<'_>, count: u32) -> Result<Group, TextRefusal>
    ensures { IsRead result tokens.new (element_tags count tokens.old) }
{
    if count == 0 {
        return Ok(Group::Ungrouped);
    }
    let tag = read_integer(tokens)?;
    pass_integers(tokens, count - 1)?;
    Ok(Group::Ungrouped.join(tag))
}

// Version 4.1: the blocks of elements.
#[tactic(auto, unfolding(crate::specs::Reading::elements_4))]
fn read_blocks(
    alloc: Global,
    tokens: &mut Tokens<'_>,
    entities: &Entities,
) -> Result<Elements, TextRefusal>
    ensures { IsGot result tokens.new (elements_4 entities.now tokens.old) }
{
    let count = read_block_count(tokens)?;
    let mut elements = Elements::new(alloc);
    for _ in 0..count {
        read_block(tokens, entities, &mut elements)?;
    }
    Ok(elements)
}

// Version 4.1: the elements of an entity.
#[tactic(auto, unfolding(crate::specs::Reading::element_block))]
fn read_block(
    tokens: &mut Tokens<'_>,
    entities: &Entities,
    elements: &mut Elements,
) -> Result<(), TextRefusal>
    ensures { IsMade result elements.new tokens.new (element_block entities.now elements.old tokens.old) }
{
    let dim = read_number(tokens, 4)?;
    let entity = read_integer(tokens)?;
    let kind = read_kind(tokens)?;
    let count = read_number(tokens, 4294967296)?;
    read_alike(tokens, kind, entities.group(dim, entity), count, elements)
}

// Version 4.1: that many elements of one type and one group.
fn read_alike(
    tokens: &mut Tokens<'_>,
    kind: Kind,
    group: Group,
    count: u32,
    elements: &mut Elements,
) -> Result<(), TextRefusal>
    ensures { IsMade result elements.new tokens.new (repeat (element_4 kind group) count elements.old tokens.old) }
{
    for _ in 0..count {
        read_grouped(tokens, kind, group, elements)?;
    }
    Ok(())
}

// Version 4.1: an element of this type and this group.
#[tactic(auto, unfolding(crate::specs::Reading::element_4))]
fn read_grouped(
    tokens: &mut Tokens<'_>,
    kind: Kind,
    group: Group,
    elements: &mut Elements,
) -> Result<(), TextRefusal>
    ensures { IsMade result elements.new tokens.new (element_4 kind group elements.old tokens.old) }
{
    let tag = read_tag(tokens)?;
    read_corners(tokens, kind, tag.line, group, elements)
}

// The nodes of an element, of which the rest is known.
#[tactic(auto, unfolding(crate::specs::Reading::corners))]
fn read_corners(
    tokens: &mut Tokens<'_>,
    kind: Kind,
    line: u32,
    group: Group,
    elements: &mut Elements,
) -> Result<(), TextRefusal>
    ensures { IsMade result elements.new tokens.new (corners kind line group elements.old tokens.old) }
{
    for _ in 0..kind.nodes() {
        read_corner(tokens, kind, elements)?;
    }
    elements.push_row(kind, line, group)
}

// A node of an element.
#[tactic(auto, unfolding(crate::specs::Reading::corner))]
fn read_corner(
    tokens: &mut Tokens<'_>,
    kind: Kind,
    elements: &mut Elements,
) -> Result<(), TextRefusal>
    ensures { IsMade result elements.new tokens.new (corner kind elements.old tokens.old) }
{
    let node = read_number(tokens, 4294967296)?;
    elements.push_corner(kind, node)
}

// The type of an element.
#[tactic(auto, unfolding(crate::specs::Reading::kind))]
fn read_kind(tokens: &mut Tokens<'_>) -> Result<Kind, TextRefusal>
    ensures { IsRead result tokens.new (kind_of_next tokens.old) }
{
    let token = next_token(tokens)?;
    kind_of_token(&token)
}

// The type of an element that a token names.
fn kind_of_token(token: &Token<'_>) -> Result<Kind, TextRefusal>
    ensures { result ≡ kind_spelled token.now.line (number_of token.now.text) }
{
    let number = match read_u64(token.text()) {
        Ok(number) => number,
        Err(NumRefusal::NotDigits) => return Err(TextRefusal::Syntax { line: token.line() }),
        Err(NumRefusal::TooLarge) => return Err(TextRefusal::ElementType { line: token.line() }),
    };
    match Kind::from_number(number) {
        Some(kind) => Ok(kind),
        None => Err(TextRefusal::ElementType { line: token.line() }),
    }
}

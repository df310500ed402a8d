// Nodes: tags and points.
ghost use Rattle.std.specs.Prelude.{◌≡◌};
ghost use Rattle.gmsh_text.specs.Parsing.{IsRead, IsGot, IsMade, repeat};
ghost use Rattle.gmsh_text.specs.Values.{no_nodes};
ghost use Rattle.gmsh_text.specs.Reading.{point, node, tag_row, point_row, node_block, nodes_2, nodes_4, nodes as nodes_of};

use crate::format::{Version, read_block_count};
use crate::numbers::{pass_decimals, read_decimal, read_integer, read_number, read_tag};
use crate::refusal::TextRefusal;
use op_num::texts::{Token, Tokens};
use std::alloc::Global;
use std::marker::Model;

/// The tag of a node, and the line that it stands on.
#[derive(Clone, Copy, Debug)]
pub struct Tag {
    pub line: u32,
    pub number: u32,
}

/// The coordinates of a node, decimals as they are spelled.
#[derive(Debug, Drop)]
pub struct Point<'a> {
    pub x: Token<'a>,
    pub y: Token<'a>,
    pub z: Token<'a>,
}

/// Nodes in the order of the file: as many points as tags. Contracts see both lists.
#[derive(Debug, Drop)]
pub struct Nodes<'a> {
    tags: Vec<Tag>,
    points: Vec<Point<'a>>,
}

impl<'a> Model for Nodes<'a> {
    ghost use Rattle.gmsh_text.specs.Rows.{Numbered};

    ghost Value = { Numbered };

    ghost view = { λ n. record { tags = n.tags.items; points = n.points.items } };
}

impl<'a> Nodes<'a> {
    // No nodes.
    pub(crate) fn new(alloc: Global) -> Nodes<'a>
        ensures { result ≡ no_nodes }
    {
        Nodes {
            tags: Vec::new(alloc),
            points: Vec::new(alloc),
        }
    }

    /// The tag of each node.
    pub fn tags(&self) -> &[Tag]
        ensures { result.now ≡ self.now.tags }
    {
        &self.tags
    }

    /// Where each node is.
    pub fn points(&self) -> &[Point<'a>]
        ensures { result.now ≡ self.now.points }
    {
        &self.points
    }
}

// The nodes of a text of this version.
#[tactic(auto, unfolding(crate::specs::Reading::nodes))]
pub(crate) fn read_nodes<'a>(
    alloc: Global,
    tokens: &mut Tokens<'a>,
    version: Version,
) -> Result<Nodes<'a>, TextRefusal>
    ensures { IsGot result tokens.new (nodes_of version tokens.old) }
{
    match version {
        Version::Two => read_list(alloc, tokens),
        Version::Four => read_blocks(alloc, tokens),
    }
}

// Version 2.2: how many nodes, and the nodes.
#[tactic(auto, unfolding(crate::specs::Reading::nodes_2))]
fn read_list<'a>(alloc: Global, tokens: &mut Tokens<'a>) -> Result<Nodes<'a>, TextRefusal>
    ensures { IsGot result tokens.new (nodes_2 tokens.old) }
{
    let count = read_number(tokens, 4294967296)?;
    let mut nodes = Nodes::new(alloc);
    for _ in 0..count {
        read_node(tokens, &mut nodes)?;
    }
    Ok(nodes)
}

// Version 4.1: the blocks of nodes.
#[tactic(auto, unfolding(crate::specs::Reading::nodes_4))]
fn read_blocks<'a>(alloc: Global, tokens: &mut Tokens<'a>) -> Result<Nodes<'a>, TextRefusal>
    ensures { IsGot result tokens.new (nodes_4 tokens.old) }
{
    let count = read_block_count(tokens)?;
    let mut nodes = Nodes::new(alloc);
    for _ in 0..count {
        read_block(tokens, &mut nodes)?;
    }
    Ok(nodes)
}

// Version 4.1: the nodes of an entity, first their tags and then their points.
#[tactic(auto, unfolding(crate::specs::Reading::node_block))]
fn read_block<'a>(tokens: &mut Tokens<'a>, nodes: &mut Nodes<'a>) -> Result<(), TextRefusal>
    ensures { IsMade result nodes.new tokens.new (node_block nodes.old tokens.old) }
{
    let dim = read_number(tokens, 4)?;
    read_integer(tokens)?;
    let parametric = read_number(tokens, 2)?;
    let count = read_number(tokens, 4294967296)?;
    read_tags(tokens, count, nodes)?;
    let extra = if parametric == 0 { 0 } else { dim };
    read_points(tokens, count, extra, nodes)
}

// That many tags.
fn read_tags<'a>(
    tokens: &mut Tokens<'a>,
    count: u32,
    nodes: &mut Nodes<'a>,
) -> Result<(), TextRefusal>
    ensures { IsMade result nodes.new tokens.new (repeat tag_row count nodes.old tokens.old) }
{
    for _ in 0..count {
        read_node_tag(tokens, nodes)?;
    }
    Ok(())
}

// That many points, and behind each so many decimals that are passed over.
fn read_points<'a>(
    tokens: &mut Tokens<'a>,
    count: u32,
    extra: u32,
    nodes: &mut Nodes<'a>,
) -> Result<(), TextRefusal>
    ensures { IsMade result nodes.new tokens.new (repeat (point_row extra) count nodes.old tokens.old) }
{
    for _ in 0..count {
        read_node_point(tokens, extra, nodes)?;
    }
    Ok(())
}

// Version 2.2: a node.
#[tactic(auto, unfolding(crate::specs::Reading::node))]
fn read_node<'a>(tokens: &mut Tokens<'a>, nodes: &mut Nodes<'a>) -> Result<(), TextRefusal>
    ensures { IsMade result nodes.new tokens.new (node nodes.old tokens.old) }
{
    read_node_tag(tokens, nodes)?;
    read_node_point(tokens, 0, nodes)
}

// The tag of one node more.
#[tactic(auto, unfolding(crate::specs::Reading::tag_row))]
fn read_node_tag<'a>(tokens: &mut Tokens<'a>, nodes: &mut Nodes<'a>) -> Result<(), TextRefusal>
    ensures { IsMade result nodes.new tokens.new (tag_row nodes.old tokens.old) }
{
    let tag = read_tag(tokens)?;
    nodes.tags.push(tag)?;
    Ok(())
}

// The point of one node more, and behind it so many decimals that are passed over.
#[tactic(auto, unfolding(crate::specs::Reading::point_row))]
fn read_node_point<'a>(
    tokens: &mut Tokens<'a>,
    extra: u32,
    nodes: &mut Nodes<'a>,
) -> Result<(), TextRefusal>
    ensures { IsMade result nodes.new tokens.new (point_row extra nodes.old tokens.old) }
{
    let point = read_point(tokens)?;
    pass_decimals(tokens, extra)?;
    nodes.points.push(point)?;
    Ok(())
}

// Three coordinates.
#[tactic(auto, unfolding(crate::specs::Reading::point))]
fn read_point<'a>(tokens: &mut Tokens<'a>) -> Result<Point<'a>, TextRefusal>
    ensures { IsRead result tokens.new (point tokens.old) }
{
    let x = read_decimal(tokens)?;
    let y = read_decimal(tokens)?;
    let z = read_decimal(tokens)?;
    Ok(Point { x, y, z })
}

// The physical groups of entities.
ghost use Rattle.std.specs.Prelude.{◌≡◌, [], codes};
ghost use Rattle.gmsh_text.specs.Parsing.{IsRead, IsGot, IsMade, IsSeen, repeat};
ghost use Rattle.gmsh_text.specs.Values.{joined};
ghost use Rattle.gmsh_text.specs.Sections.{group_row, group, skip_point, entity, entity_row, skip_entity, entity_lists, entities};
ghost use Rattle.gmsh_text.specs.Sections.{no_entities, entities_in, entities_before, group_of};

use crate::format::{Section, next_section};
use crate::numbers::{pass_decimals, pass_integers, read_integer, read_number, read_word};
use crate::refusal::TextRefusal;
use indexmap::IndexMap;
use op_num::texts::Tokens;
use std::alloc::Global;
use std::marker::Model;

/// The physical group of an element.
#[derive(Clone, Copy, Debug, PartialEq, Eq)]
pub enum Group {
    /// It is in none.
    Ungrouped,
    /// It is in the group of this physical tag.
    One(i32),
    /// It is in two groups or more, as version 4.1 of the format can say.
    Several,
}

impl Group {
    // The group with one more physical tag; 0 says that there is none.
    pub(crate) fn join(self, tag: i32) -> Group
        ensures { result ≡ joined self tag }
    {
        match self {
            Group::Ungrouped => {
                if tag == 0 {
                    Group::Ungrouped
                } else {
                    Group::One(tag)
                }
            }
            _ => Group::Several,
        }
    }
}

// The groups of the curves and of the surfaces by their tags.
#[derive(Drop)]
pub(crate) struct Entities {
    curves: IndexMap<i32, Group>,
    surfaces: IndexMap<i32, Group>,
}

impl Model for Entities {
    ghost use Rattle.gmsh_text.specs.Groups.{EntityGroups};

    ghost Value = { EntityGroups };

    ghost view = { λ e. record { curves = e.curves.entries; surfaces = e.surfaces.entries } };
}

impl Entities {
    // The group of an entity by its dimension and its tag.
    pub(crate) fn group(&self, dim: u32, tag: i32) -> Group
        ensures { result ≡ group_of self.now dim tag }
    {
        let found = match dim {
            1 => self.curves.get(&tag),
            2 => self.surfaces.get(&tag),
            _ => None,
        };
        match found {
            Some(group) => *group,
            None => Group::Ungrouped,
        }
    }
}

// The entities' groups, and the word with which the nodes begin.
#[tactic(auto, unfolding(crate::specs::Sections::entities_before))]
pub(crate) fn read_entities_before(
    alloc: Global,
    tokens: &mut Tokens<'_>,
) -> Result<Entities, TextRefusal>
    ensures { IsGot result tokens.new (entities_before tokens.old) }
{
    match next_section(tokens)? {
        Section::Nodes => {
            Ok(Entities {
                curves: IndexMap::new(alloc),
                surfaces: IndexMap::new(alloc),
            })
        }
        Section::Entities => {
            let entities = read_entities(alloc, tokens)?;
            match next_section(tokens)? {
                Section::Nodes => Ok(entities),
                _ => Err(TextRefusal::Syntax {
                    line: tokens.last(),
                }),
            }
        }
        Section::Elements => Err(TextRefusal::Syntax {
            line: tokens.last(),
        }),
    }
}

// How many entities of each dimension, and the entities.
#[tactic(auto, unfolding(crate::specs::Sections::entities))]
fn read_entities(alloc: Global, tokens: &mut Tokens<'_>) -> Result<Entities, TextRefusal>
    ensures { IsGot result tokens.new (entities tokens.old) }
{
    let points = read_number(tokens, 4294967296)?;
    let curves = read_number(tokens, 4294967296)?;
    let surfaces = read_number(tokens, 4294967296)?;
    let volumes = read_number(tokens, 4294967296)?;
    let entities = read_entity_lists(alloc, tokens, points, curves, surfaces, volumes)?;
    read_word(tokens, entities_end())?;
    Ok(entities)
}

// That many entities of each dimension.
#[tactic(auto, unfolding(crate::specs::Sections::entity_lists))]
fn read_entity_lists(
    alloc: Global,
    tokens: &mut Tokens<'_>,
    points: u32,
    curves: u32,
    surfaces: u32,
    volumes: u32,
) -> Result<Entities, TextRefusal>
    ensures { IsGot result tokens.new (entity_lists points curves surfaces volumes tokens.old) }
{
    pass_points(tokens, points)?;
    let curves = read_group_list(alloc, tokens, curves)?;
    let surfaces = read_group_list(alloc, tokens, surfaces)?;
    pass_entities(tokens, volumes)?;
    Ok(Entities { curves, surfaces })
}

// Passes over that many points.
fn pass_points(tokens: &mut Tokens<'_>, count: u32) -> Result<(), TextRefusal>
    ensures { IsRead result tokens.new (repeat skip_point count tt tokens.old) }
{
    for _ in 0..count {
        pass_point(tokens)?;
    }
    Ok(())
}

// Passes over a point: its tag, three coordinates and its physical tags.
#[tactic(auto, unfolding(crate::specs::Sections::skip_point))]
fn pass_point(tokens: &mut Tokens<'_>) -> Result<(), TextRefusal>
    ensures { IsRead result tokens.new (skip_point tt tokens.old) }
{
    read_integer(tokens)?;
    pass_decimals(tokens, 3)?;
    read_group(tokens)?;
    Ok(())
}

// That many entities.
fn read_group_list(
    alloc: Global,
    tokens: &mut Tokens<'_>,
    count: u32,
) -> Result<IndexMap<i32, Group>, TextRefusal>
    ensures { IsSeen result (λ groups. groups.entries) tokens.new (repeat entity_row count [] tokens.old) }
{
    let mut groups = IndexMap::new(alloc);
    for _ in 0..count {
        add_entity(tokens, &mut groups)?;
    }
    Ok(groups)
}

// One more entity, with a tag of its own.
#[tactic(auto, unfolding(crate::specs::Sections::entity_row))]
fn add_entity(tokens: &mut Tokens<'_>, groups: &mut IndexMap<i32, Group>) -> Result<(), TextRefusal>
    ensures { IsMade result groups.new.entries tokens.new (entity_row groups.old.entries tokens.old) }
{
    let (tag, group) = read_entity(tokens)?;
    if groups.contains_key(&tag) {
        return Err(TextRefusal::DuplicateEntity {
            line: tokens.last(),
        });
    }
    groups.insert(tag, group)?;
    Ok(())
}

// Passes over that many entities.
fn pass_entities(tokens: &mut Tokens<'_>, count: u32) -> Result<(), TextRefusal>
    ensures { IsRead result tokens.new (repeat skip_entity count tt tokens.old) }
{
    for _ in 0..count {
        read_entity(tokens)?;
    }
    Ok(())
}

// The tag of an entity and its group.
#[tactic(auto, unfolding(crate::specs::Sections::entity))]
fn read_entity(tokens: &mut Tokens<'_>) -> Result<(i32, Group), TextRefusal>
    ensures { IsRead result tokens.new (entity tokens.old) }
{
    let tag = read_integer(tokens)?;
    pass_decimals(tokens, 6)?;
    let group = read_group(tokens)?;
    let bounds = read_number(tokens, 4294967296)?;
    pass_integers(tokens, bounds)?;
    Ok((tag, group))
}

// The group of an entity's physical tags.
#[tactic(auto, unfolding(crate::specs::Sections::group))]
fn read_group(tokens: &mut Tokens<'_>) -> Result<Group, TextRefusal>
    ensures { IsRead result tokens.new (group tokens.old) }
{
    let count = read_number(tokens, 4294967296)?;
    let mut group = Group::Ungrouped;
    for _ in 0..count {
        let tag = read_integer(tokens)?;
        group = group.join(tag);
    }
    Ok(group)
}

fn entities_end() -> &'static [u8]
    ensures { result.now ≡ codes "$EndEntities" }
{
    b"$EndEntities"
}

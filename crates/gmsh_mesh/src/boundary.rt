// The physical tags of the boundary.
ghost use Rattle.std.specs.Prelude.{◌≡◌, ◌+◌, ◌*◌, ◌++◌, ◌<◌, ◌≤◌, ◌^◌, ℕ, IfOk, MatchResult, length, slice_index};
ghost use Rattle.gmsh_mesh.specs.Stages.{Gives};
ghost use Rattle.gmsh_mesh.specs.Boundary.{TagsAre};
ghost use Rattle.gmsh_mesh.specs.Classes.{joined_tag as tag_with, AreMarks, AreClassTags, IsClassRefused, AreTagsOf};

use crate::cell_faces::side_classes;
use crate::refusal::GmshRefusal;
use gmsh_text::Group;
use std::alloc::{AllocError, Global};
use std::marker::Model;

// The elements that are like sides: their nodes by number, their groups and their lines.
#[derive(Drop)]
pub(crate) struct SideElements<'a> {
    pub(crate) nodes: &'a [u32],
    pub(crate) groups: &'a [Group],
    pub(crate) lines: &'a [u32],
}

impl<'a> Model for SideElements<'a> {
    ghost use Rattle.gmsh_mesh.specs.Boundary.{SideElements as Elements};

    ghost Value = { Elements };

    ghost view = { λ e. record { nodes = e.nodes.now; groups = e.groups.now; lines = e.lines.now } };
}

// The physical tag of each of `count` sides of the boundary, each of `width` nodes, or 0: that of the elements with its
// nodes. `TwoGroups` where such elements are in two groups, with the line of the first that is in another group than
// one before, or in several.
pub(crate) fn boundary_tags(
    alloc: Global,
    count: usize,
    width: usize,
    boundary: &[u32],
    elements: &SideElements<'_>,
) -> Result<Vec<i32>, GmshRefusal>
    requires few { count + length elements.now.groups < 2 ^ 32 }
    requires boundary { length boundary.now ≡ count * width }
    requires nodes { length elements.now.nodes ≡ length elements.now.groups * width }
    requires lines { length elements.now.lines ≡ length elements.now.groups }
    ensures { Gives result (λ v. v.items) (TagsAre width count boundary.now elements.now) }
{
    let total = count + elements.groups.len();
    let rows = joined(alloc, boundary, elements.nodes)?;
    let classes = side_classes(alloc, total, width, &rows)?;
    let marks = marked(alloc, &classes, count)?;
    let tags = class_tags(alloc, &classes, count, &marks, elements)?;
    side_tags(alloc, &classes, count, &tags)
}

// Rows, and others behind them.
fn joined(alloc: Global, first: &[u32], second: &[u32]) -> Result<Vec<u32>, AllocError>
    ensures { IfOk result (λ v. v.items ≡ first.now ++ second.now) }
{
    let mut all = Vec::from_slice(alloc, first)?;
    all.extend_from_slice(second)?;
    Ok(all)
}

// For each class whether one of the first `count` rows has it.
fn marked(alloc: Global, classes: &[u32], count: usize) -> Result<Vec<bool>, AllocError>
    requires within { count ≤ length classes.now }
    requires small { (i : ℕ) → i < length classes.now → slice_index classes.now i < length classes.now }
    ensures { IfOk result (λ marks. AreMarks classes.now count marks.items) }
{
    let mut marks = vec![in alloc; false; classes.len()]?;
    for side in 0..count {
        marks[classes[side] as usize] = true;
    }
    Ok(marks)
}

// The tag of each class that is marked: that of its elements, whose classes stand behind the first `count`.
fn class_tags(
    alloc: Global,
    classes: &[u32],
    count: usize,
    marks: &[bool],
    elements: &SideElements<'_>,
) -> Result<Vec<Option<i32>>, GmshRefusal>
    requires classes { length classes.now ≡ count + length elements.now.groups }
    requires small { (i : ℕ) → i < length classes.now → slice_index classes.now i < length classes.now }
    requires marks { length marks.now ≡ length classes.now }
    requires lines { length elements.now.lines ≡ length elements.now.groups }
    ensures { MatchResult result
        (λ tags. AreClassTags classes.now count elements.now.groups (length elements.now.groups) marks.now tags.items)
        (IsClassRefused classes.now count marks.now elements.now) }
{
    let mut tags = vec![in alloc; None; classes.len()]?;
    for element in 0..elements.groups.len() {
        take_element(classes, count, marks, elements, element, &mut tags)?;
    }
    Ok(tags)
}

// Takes an element, behind those that were taken.
fn take_element(
    classes: &[u32],
    count: usize,
    marks: &[bool],
    elements: &SideElements<'_>,
    element: usize,
    tags: &mut [Option<i32>],
) -> Result<(), GmshRefusal>
    requires within { element < length elements.now.groups }
    requires classes { length classes.now ≡ count + length elements.now.groups }
    requires small { slice_index classes.now (count + element) < length classes.now }
    requires marks { length marks.now ≡ length classes.now }
    requires lines { length elements.now.lines ≡ length elements.now.groups }
    requires so_far { AreClassTags classes.now count elements.now.groups element marks.now tags.old }
    ensures { MatchResult result (λ _. AreClassTags classes.now count elements.now.groups (element + 1) marks.now tags.new)
        (IsClassRefused classes.now count marks.now elements.now) }
{
    let class = classes[count + element] as usize;
    if marks[class] {
        tags[class] = joined_tag(
            tags[class],
            elements.groups[element],
            elements.lines[element],
        )?;
    }
    Ok(())
}

// The tag of each of the first `count` rows by its class, or 0.
fn side_tags(
    alloc: Global,
    classes: &[u32],
    count: usize,
    tags: &[Option<i32>],
) -> Result<Vec<i32>, GmshRefusal>
    requires within { count ≤ length classes.now }
    requires small { (i : ℕ) → i < count → slice_index classes.now i < length tags.now }
    ensures { Gives result (λ v. v.items) (AreTagsOf classes.now count tags.now) }
{
    let mut all = Vec::with_capacity(alloc, count)?;
    for side in 0..count {
        all.push(tags[classes[side] as usize].unwrap_or(0))?;
    }
    Ok(all)
}

// The tag of a class with one element more.
fn joined_tag(tag: Option<i32>, group: Group, line: u32) -> Result<Option<i32>, GmshRefusal>
    ensures { result ≡ tag_with tag group line }
{
    match (tag, group) {
        (_, Group::Ungrouped) => Ok(tag),
        (_, Group::Several) => Err(GmshRefusal::TwoGroups { line }),
        (None, Group::One(other)) => Ok(Some(other)),
        (Some(one), Group::One(other)) => {
            if one != other {
                return Err(GmshRefusal::TwoGroups { line });
            }
            Ok(tag)
        }
    }
}

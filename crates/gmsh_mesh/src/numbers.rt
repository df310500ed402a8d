// Nodes by number.
ghost use Rattle.std.specs.Prelude.{◌≡◌, ◌+◌, ◌*◌, ◌<◌, ◌^◌, IfOk, length};
ghost use Rattle.gmsh_mesh.specs.Stages.{Gives};
ghost use Rattle.gmsh_mesh.specs.Numbers.{NumbersAre, numbers as numbers_of};

use crate::refusal::GmshRefusal;
use crate::tag_places::{TagRefusal, tag_places};
use gmsh_text::Tag;
use std::alloc::{AllocError, Global};

// The tags without their lines.
pub(crate) fn tag_numbers(alloc: Global, tags: &[Tag]) -> Result<Vec<u32>, AllocError>
    ensures { IfOk result (λ v. v.items ≡ numbers_of tags.now) }
{
    let mut numbers = Vec::with_capacity(alloc, tags.len())?;
    for tag in tags {
        numbers.push(tag.number)?;
    }
    Ok(numbers)
}

// The nodes of elements by number: `nodes` has their tags, `lines` the line of each element, which has `width` nodes.
// The nodes' own tags are `tags`, without their lines `numbers`.
pub(crate) fn numbered(
    alloc: Global,
    tags: &[Tag],
    numbers: &[u32],
    nodes: &[u32],
    lines: &[u32],
    width: usize,
) -> Result<Vec<u32>, GmshRefusal>
    requires numbers { numbers.now ≡ numbers_of tags.now }
    requires few { length tags.now + length nodes.now < 2 ^ 32 }
    requires width { 0 < width }
    requires table { length nodes.now ≡ length lines.now * width }
    ensures { Gives result (λ v. v.items) (NumbersAre tags.now nodes.now lines.now width) }
{
    match tag_places(alloc, numbers, nodes) {
        Ok(places) => Ok(places),
        Err(TagRefusal::Doubled { place }) => Err(GmshRefusal::DuplicateTag {
            line: tags[place as usize].line,
        }),
        Err(TagRefusal::Unknown { place }) => Err(GmshRefusal::UnknownTag {
            line: lines[place as usize / width],
        }),
        Err(TagRefusal::OutOfMemory) => Err(GmshRefusal::OutOfMemory),
    }
}

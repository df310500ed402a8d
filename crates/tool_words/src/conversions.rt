// A mesh of Gmsh, as its options say.

ghost use Rattle.std.specs.Prelude.{◌≡◌, ◌&&◌, option_map};
ghost use Rattle.command_words.specs.Words.{runs_nothing};
ghost use Rattle.tool_words.specs.Words.{where_so, has_mesh_alone, dimension_by, scale_by, converted};
ghost use Rattle.tool_words.specs.Values.{command_of, given_of};

use crate::asked::Asked;
use crate::given::{Given, has_mesh_alone};
use crate::pictures::small_number;
use command_words::runs_nothing;
use gmsh_mesh::Dimension;

// The dimension that a word says, 2 or 3, or none where no word stands.
fn dimension_by(word: Option<&str>) -> Option<Option<Dimension>>
    ensures { result ≡ dimension_by (option_map (λ s. s.now) word.entry) }
{
    let Some(word) = word else {
        return Some(None);
    };
    if word == "2" {
        Some(Some(Dimension::Two))
    } else if word == "3" {
        Some(Some(Dimension::Three))
    } else {
        None
    }
}

// The scale that a word says, from 1 on, below 2^32, in decimal digits.
fn scale_by(word: Option<&str>) -> Option<u32>
    ensures { result ≡ scale_by (option_map (λ s. s.now) word.entry) }
{
    let number = small_number(word?)?;
    if number > 0 { Some(number) } else { None }
}

/// FILE, with `--scale`, `--dim` and `--source`.
pub fn converted<'a>(given: &Given<'a>) -> Option<Asked<'a>>
    ensures { option_map command_of result
        ≡ where_so (runs_nothing (given_of given.now).planning && has_mesh_alone (given_of given.now).own)
        (converted (given_of given.now).first (given_of given.now).second (given_of given.now).own) }
{
    if !runs_nothing(&given.planning) || !has_mesh_alone(&given.own) {
        return None;
    }
    let (Some(file), None) = (given.first, given.second) else {
        return None;
    };
    let scale = scale_by(given.own.scale)?;
    let dim = dimension_by(given.own.dim)?;
    let writes_source = given.own.source;
    Some(Asked::Convert {
        file,
        dim,
        scale,
        writes_source,
    })
}

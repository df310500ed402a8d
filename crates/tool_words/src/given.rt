// The words that jobs are asked for by.

ghost use Rattle.std.specs.Prelude.{◌≡◌};
ghost use Rattle.tool_words.specs.Words.{names_no_picture, names_no_mesh, are_bare, has_no_option};
ghost use Rattle.tool_words.specs.Words.{has_picture_alone, has_grid_alone, has_plain_alone};
ghost use Rattle.tool_words.specs.Words.{has_metis_alone, has_ranks_alone, has_mesh_alone};
ghost use Rattle.command_words.specs.Values.{option_words_of};
ghost use Rattle.tool_words.specs.Values.{own_of, given_of};

use command_words::{OptionWords, runs_nothing};

/// The values of the options of single jobs, and whether their flags stand.
#[derive(Clone, Copy, Debug)]
pub struct OwnWords<'a> {
    pub coords: Option<&'a str>,
    pub cells: Option<&'a str>,
    pub halos: Option<&'a str>,
    pub colours: Option<&'a str>,
    pub output: Option<&'a str>,
    pub plain: bool,
    pub metis: Option<&'a str>,
    pub set: Option<&'a str>,
    pub scale: Option<&'a str>,
    pub dim: Option<&'a str>,
    pub source: bool,
}

/// The words behind the job's name, and the values of the options of a plan and of those of single jobs.
#[derive(Clone, Copy, Debug)]
pub struct Given<'a> {
    pub first: Option<&'a str>,
    pub second: Option<&'a str>,
    pub third: Option<&'a str>,
    pub fourth: Option<&'a str>,
    pub fifth: Option<&'a str>,
    pub planning: OptionWords<'a>,
    pub own: OwnWords<'a>,
}

// Whether none of the options of a picture stands.
fn names_no_picture(words: &OwnWords<'_>) -> bool
    ensures { result ≡ names_no_picture (own_of words.now) }
{
    words.coords.is_none()
        && words.cells.is_none()
        && words.halos.is_none()
        && words.colours.is_none()
}

// Whether none of those of a mesh of Gmsh stands.
fn names_no_mesh(words: &OwnWords<'_>) -> bool
    ensures { result ≡ names_no_mesh (own_of words.now) }
{
    words.scale.is_none() && words.dim.is_none() && !words.source
}

/// Whether none of the options of single jobs stands.
pub fn are_bare(words: &OwnWords<'_>) -> bool
    ensures { result ≡ are_bare (own_of words.now) }
{
    names_no_picture(words)
        && words.output.is_none()
        && !words.plain
        && words.metis.is_none()
        && words.set.is_none()
        && names_no_mesh(words)
}

/// Whether no option stands.
pub fn has_no_option(given: &Given<'_>) -> bool
    ensures { result ≡ has_no_option (given_of given.now) }
{
    runs_nothing(&given.planning) && are_bare(&given.own)
}

/// Whether no option stands of a job other than those with a picture.
pub fn has_picture_alone(words: &OwnWords<'_>) -> bool
    ensures { result ≡ has_picture_alone (own_of words.now) }
{
    let others = OwnWords {
        coords: None,
        cells: None,
        halos: None,
        colours: None,
        ..*words
    };
    are_bare(&others)
}

/// The same, beside the file of an output.
pub fn has_grid_alone(words: &OwnWords<'_>) -> bool
    ensures { result ≡ has_grid_alone (own_of words.now) }
{
    let others = OwnWords {
        output: None,
        ..*words
    };
    has_picture_alone(&others)
}

/// Whether no option stands of a job other than what a plan costs.
pub fn has_plain_alone(words: &OwnWords<'_>) -> bool
    ensures { result ≡ has_plain_alone (own_of words.now) }
{
    let others = OwnWords {
        plain: false,
        ..*words
    };
    are_bare(&others)
}

/// Whether no option stands of a job other than owners.
pub fn has_metis_alone(words: &OwnWords<'_>) -> bool
    ensures { result ≡ has_metis_alone (own_of words.now) }
{
    let others = OwnWords {
        metis: None,
        set: None,
        ..*words
    };
    are_bare(&others)
}

/// Whether no option stands of a job other than a mesh of Gmsh.
pub fn has_mesh_alone(words: &OwnWords<'_>) -> bool
    ensures { result ≡ has_mesh_alone (own_of words.now) }
{
    let others = OwnWords {
        scale: None,
        dim: None,
        source: false,
        ..*words
    };
    are_bare(&others)
}

/// Whether of the options of a plan none but the number of ranks stands.
pub fn has_ranks_alone(words: &OptionWords<'_>) -> bool
    ensures { result ≡ has_ranks_alone (option_words_of words.now) }
{
    let others = OptionWords {
        ranks: None,
        ..*words
    };
    runs_nothing(&others)
}

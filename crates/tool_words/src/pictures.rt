// What is shown of a mesh, as the options of a picture say.

ghost use Rattle.std.specs.Prelude.{◌≡◌, option_map};
ghost use Rattle.tool_words.specs.Words.{small_number, shown_by, picture_in};
ghost use Rattle.tool_words.specs.Values.{own_of, picture_of};

use crate::asked::Picture;
use crate::given::OwnWords;
use cell_numbers::Shown;
use op_num::read_u64;

/// A number below 2^32 in decimal digits.
pub fn small_number(word: &str) -> Option<u32>
    ensures { result ≡ small_number word.now }
{
    match read_u64(word.as_bytes()) {
        Ok(number) if number < 4_294_967_296 => Some(number as u32),
        _ => None,
    }
}

// What is to be shown: at most one of the two words stands.
fn shown_by(halos: Option<&str>, colours: Option<&str>) -> Option<Shown>
    ensures { result ≡ shown_by (option_map (λ s. s.now) halos.entry) (option_map (λ s. s.now) colours.entry) }
{
    match (halos, colours) {
        (None, None) => Some(Shown::Owners),
        (Some(rank), None) => Some(Shown::Halos {
            rank: small_number(rank)?,
        }),
        (None, Some(site)) => Some(Shown::Colours {
            site: small_number(site)?,
        }),
        (Some(_), Some(_)) => None,
    }
}

/// What is shown of a mesh, where all of it is told.
pub fn picture_in<'a>(words: &OwnWords<'a>) -> Option<Picture<'a>>
    ensures { option_map picture_of result ≡ picture_in (own_of words.now) }
{
    let (Some(coords), Some(cells)) = (words.coords, words.cells) else {
        return None;
    };
    let shown = shown_by(words.halos, words.colours)?;
    Some(Picture {
        coords,
        cells,
        shown,
    })
}

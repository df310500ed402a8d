// Finding a text.
ghost use Rattle.std.specs.Prelude.{◌≡◌, option_map};
ghost use Rattle.std.specs.List.{find};
ghost use Rattle.explanations.specs.Texts.{texts_of, field, has_name, explains, all_texts};

use crate::meanings::bindings::BINDINGS;
use crate::meanings::files::FILES;
use crate::meanings::limits::LIMITS;
use crate::meanings::program::PROGRAM;
use crate::meanings::sources::SOURCES;
use crate::meanings::statuses::STATUSES;
use crate::parts::{cut, part_at};

/// A part of a text: its name is 0, what its lines begin with 1, its cause 2, what to do about it 3.
pub fn field(text: &[u8], place: u64) -> &[u8]
    ensures { result.now ≡ field text.now place }
{
    match part_at(text, b'\t', place) {
        Some(part) => part,
        None => b"",
    }
}

// The first text of a table that has this name.
fn named_in<'a>(table: &'a str, name: &[u8]) -> Option<&'a [u8]>
    ensures { option_map (λ t. t.now) result ≡ find (has_name name.now) (texts_of table.now) }
{
    let mut rest = Some(table.as_bytes());
    while let Some(texts) = rest {
        let (text, more) = cut(texts, b'\n');
        if name == field(text, 0) {
            return Some(text);
        }
        rest = more;
    }
    None
}

/// The text of this name, or none where there is no such error. It takes time linear in the texts, and no memory.
pub fn text_named(name: &[u8]) -> Option<&'static [u8]>
    ensures { option_map (λ t. t.now) result ≡ find (has_name name.now) all_texts }
{
    named_in(SOURCES, name)
        .or(named_in(BINDINGS, name))
        .or(named_in(FILES, name))
        .or(named_in(LIMITS, name))
        .or(named_in(PROGRAM, name))
        .or(named_in(STATUSES, name))
}

// The first text of a table whose lines begin as this line does.
fn explaining_in<'a>(table: &'a str, line: &[u8]) -> Option<&'a [u8]>
    ensures { option_map (λ t. t.now) result ≡ find (explains line.now) (texts_of table.now) }
{
    let mut rest = Some(table.as_bytes());
    while let Some(texts) = rest {
        let (text, more) = cut(texts, b'\n');
        if line.starts_with(field(text, 1)) {
            return Some(text);
        }
        rest = more;
    }
    None
}

/// The text that explains this line of `op2`: the first whose lines begin as it does, so that the text of a single
/// error comes before that of its status. None where `op2` has no such line. It takes time linear in the texts, and no
/// memory.
pub fn text_of_line(line: &[u8]) -> Option<&'static [u8]>
    ensures { option_map (λ t. t.now) result ≡ find (explains line.now) all_texts }
{
    explaining_in(SOURCES, line)
        .or(explaining_in(BINDINGS, line))
        .or(explaining_in(FILES, line))
        .or(explaining_in(LIMITS, line))
        .or(explaining_in(PROGRAM, line))
        .or(explaining_in(STATUSES, line))
}

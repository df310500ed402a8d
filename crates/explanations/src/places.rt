// The place in the source that a line tells.
ghost use Rattle.std.specs.Prelude.{◌≡◌, option_map, slice_get};
ghost use Rattle.explanations.specs.Cuts.{parts, parts_to_come};
ghost use Rattle.explanations.specs.Words.{without_lf, line_words, behind_at, number_in, number_at, place_of, place_in, tells_place};

use crate::parts::{cut, part_at};
use op_num::read_u64;

/// A place in a source: its line and its column in bytes, both from 1.
#[derive(Clone, Copy, PartialEq, Eq, Debug)]
pub struct Place {
    pub line: u64,
    pub column: u64,
}

/// Whether the line tells a place in the source.
pub fn tells_place(line: &[u8]) -> bool
    ensures { result ≡ tells_place line.now }
{
    line.starts_with(b"op2: source ")
        || line.starts_with(b"op2: fault ")
        || line.starts_with(b"op2: translate ")
}

/// A line without the LF at its end.
pub fn without_lf(line: &[u8]) -> &[u8]
    ensures { result.now ≡ without_lf line.now }
{
    if line.ends_with(b"\n") {
        &line[..line.len() - 1]
    } else {
        line
    }
}

// The first of the words in some bytes with single spaces between them.
fn first_word(words: Option<&[u8]>) -> Option<&[u8]>
    ensures { option_map (λ w. w.now) result ≡ slice_get (parts_to_come 32 words.entry) 0 }
{
    match words {
        Some(words) => Some(cut(words, b' ').0),
        None => None,
    }
}

// The word behind the first `at`.
fn behind_at(words: &[u8]) -> Option<&[u8]>
    ensures { option_map (λ w. w.now) result ≡ behind_at (parts 32 words.now) }
{
    let mut rest = Some(words);
    while let Some(left) = rest {
        let (word, more) = cut(left, b' ');
        if word == b"at".as_slice() {
            return first_word(more);
        }
        rest = more;
    }
    None
}

// A number below 2^64 in decimal digits.
fn number_in(word: &[u8]) -> Option<u64>
    ensures { result ≡ number_in word.now }
{
    match read_u64(word) {
        Ok(number) => Some(number),
        Err(_) => None,
    }
}

// The number that is a part of some bytes.
fn number_at(bytes: &[u8], separator: u8, place: u64) -> Option<u64>
    ensures { result ≡ number_at (parts separator bytes.now) place }
{
    match part_at(bytes, separator, place) {
        Some(word) => number_in(word),
        None => None,
    }
}

/// The number that is a word of a line, by its place from 0; none where the word is no number below 2^64.
pub fn word_number(line: &[u8], place: u64) -> Option<u64>
    ensures { result ≡ number_at (line_words line.now) place }
{
    number_at(without_lf(line), b' ', place)
}

// The place that a word is.
fn place_of(word: &[u8]) -> Option<Place>
    ensures { result ≡ place_of word.now }
{
    let line = number_at(word, b':', 0)?;
    let column = number_at(word, b':', 1)?;
    Some(Place { line, column })
}

/// The place that a line tells, behind its first `at`.
pub fn place_in(line: &[u8]) -> Option<Place>
    ensures { result ≡ place_in line.now }
{
    match behind_at(without_lf(line)) {
        Some(word) => place_of(word),
        None => None,
    }
}

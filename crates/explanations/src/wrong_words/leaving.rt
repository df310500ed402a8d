// Words left out.
ghost use Rattle.std.specs.Prelude.{◌≡◌, ◌≤◌, ◌<◌, ◌-◌, ◌++◌, map, take, drop, string_bytes, IfOk, OnOk, length};
ghost use Rattle.explanations.specs.Wrong.{is_call, without_at, last_place, wrong_place};

use command_words::{WordsRefusal, read_words};
use op_num::OutOfMemory;
use std::alloc::{AllocError, Global};

// Whether the words are those of a call.
fn is_call(alloc: Global, words: &Vec<String>) -> Result<bool, OutOfMemory>
    ensures { IfOk result (λ b. b ≡ is_call (map string_bytes words.now.items)) }
{
    match read_words(alloc, words) {
        Ok(_) => Ok(true),
        Err(WordsRefusal::Usage) => Ok(false),
        Err(WordsRefusal::OutOfMemory) => Err(AllocError),
    }
}

// Appends copies of words.
fn push_words(out: &mut Vec<String>, words: &[String]) -> Result<(), OutOfMemory>
    ensures { OnOk result (map string_bytes out.new.items ≡ map string_bytes out.old.items ++ map string_bytes words.now) }
{
    for word in words {
        out.push(word.clone()?)?;
    }
    Ok(())
}

/// So many words at the front, or all where there are fewer.
pub fn front_of(words: &[String], count: usize) -> &[String]
    ensures { result.now ≡ take count words.now }
{
    &words[..count.min(words.len())]
}

/// The words from a place on; none where there are fewer.
pub fn from_place(words: &[String], place: usize) -> &[String]
    ensures { result.now ≡ drop place words.now }
{
    if place > words.len() {
        return &[];
    }
    words.split_at(place).1
}

// Words without so many at this place.
fn without_at(
    alloc: Global,
    words: &Vec<String>,
    place: usize,
    count: usize,
) -> Result<Vec<String>, OutOfMemory>
    requires within { place ≤ length words.now.items }
    requires few { count ≤ 2 }
    ensures { IfOk result (λ v. map string_bytes v.items ≡ without_at place count (map string_bytes words.now.items)) }
{
    let (before, rest) = words.split_at(place);
    let mut out = Vec::new(alloc);
    push_words(&mut out, before)?;
    push_words(&mut out, from_place(rest, count))?;
    Ok(out)
}

// The last place up to this one at which so many words can be left out.
fn last_place(
    alloc: Global,
    words: &Vec<String>,
    count: usize,
    most: usize,
) -> Result<Option<usize>, OutOfMemory>
    requires within { most ≤ length words.now.items }
    requires few { count ≤ 2 }
    ensures { IfOk result (λ p. p ≡ last_place (map string_bytes words.now.items) count most) }
{
    let mut place = most;
    while place > 0 {
        let left = without_at(alloc, words, place, count)?;
        if is_call(alloc, &left)? {
            return Ok(Some(place));
        }
        place -= 1;
    }
    Ok(None)
}

/// The last place behind the first word at which so many words, one or two, can be left out so that a call is left. An
/// error is want of memory.
pub fn wrong_place(
    alloc: Global,
    words: &Vec<String>,
    count: usize,
) -> Result<Option<usize>, OutOfMemory>
    requires { count ≤ 2 }
    ensures { IfOk result (λ p. p ≡ wrong_place (map string_bytes words.now.items) count) }
{
    last_place(alloc, words, count, words.len().saturating_sub(1))
}

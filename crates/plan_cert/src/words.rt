// Colours as words of a line.
ghost use Rattle.std.specs.Prelude.{◌≡◌, ◌∷◌, ◌<◌, ◌^◌, ℕ, List, true, false, Some, MatchOption, IfOk};
ghost use Rattle.op_num.specs.Spelling.{number_of};
ghost use Rattle.plan_cert.specs.Told.{ToldIs, LineIs};

use colouring::Colours;
use op_num::texts::line_texts::Words;
use op_num::{OutOfMemory, read_u64};
use std::alloc::Global;

// The colour that a word spells: digits with a value below 2 ^ 32.
fn told_colour(word: &[u8]) -> Option<u32>
    ensures { MatchOption result ((c : ℕ) → number_of word.now ≡ Some c → c < 2 ^ 32 → ⊥) (λ c. number_of word.now ≡ Some c) }
{
    match read_u64(word) {
        Ok(number) if number <= u32::MAX as u64 => Some(number as u32),
        _ => None,
    }
}

// The colours that the next words spell, so many.
fn told_colours(
    alloc: Global,
    words: &mut Words,
    count: u32,
) -> Result<Option<Vec<u32>>, OutOfMemory>
    ensures { IfOk result (ToldIs words.old words.new count) }
{
    let mut found = Vec::new(alloc);
    for told in 0..count {
        let Some(word) = words.next() else {
            return Ok(None);
        };
        let Some(colour) = told_colour(word) else {
            return Ok(None);
        };
        found.push(colour)?;
    }
    Ok(Some(found))
}

// Whether the next word is this.
fn is_next(words: &mut Words, word: &[u8]) -> bool
    ensures there { result ≡ true → words.old ≡ word.now ∷ words.new }
    ensures other { result ≡ false → (more : List (List ℕ)) → words.old ≡ word.now ∷ more → ⊥ }
{
    match words.next() {
        Some(next) => next == word,
        None => false,
    }
}

/// What a line tells behind `front`: the colours of so many blocks, `inner`, and those of so many places; none where it
/// is another.
pub fn told_line(
    alloc: Global,
    line: &[u8],
    front: &[u8],
    blocks: u32,
    places: u32,
) -> Result<Option<Colours>, OutOfMemory>
    ensures { IfOk result (LineIs front.now line.now blocks places) }
{
    let Some(behind) = line.strip_prefix(front) else {
        return Ok(None);
    };
    let mut words = Words::new(behind);
    if !is_next(&mut words, b"") {
        return Ok(None);
    }
    let Some(blocks) = told_colours(alloc, &mut words, blocks)? else {
        return Ok(None);
    };
    if !is_next(&mut words, b"inner") {
        return Ok(None);
    }
    let Some(inner) = told_colours(alloc, &mut words, places)? else {
        return Ok(None);
    };
    if words.next().is_some() {
        return Ok(None);
    }
    Ok(Some(Colours { blocks, inner }))
}

// What is said of words that are refused.
ghost use Rattle.std.specs.Prelude.{◌≡◌, ◌≤◌, ◌∷◌, ◌++◌, codes, map, take, drop, string_bytes, OnOk};
ghost use Rattle.std.specs.List.{flat_map};
ghost use Rattle.explanations.specs.Wrong.{words_at, wrong_place, said_of_one, said_of_two, said_wrong};

use crate::wrong_words::leaving::{from_place, front_of, wrong_place};
use op_num::OutOfMemory;
use std::alloc::Global;

// Words, each with a space before it.
fn put_words(out: &mut Vec<u8>, words: &[String]) -> Result<(), OutOfMemory>
    ensures { OnOk result (out.new.items ≡ out.old.items ++ flat_map (λ w. 32 ∷ w) (map string_bytes words.now)) }
{
    for word in words {
        out.push(b' ')?;
        out.extend_from_slice(word.as_bytes())?;
    }
    Ok(())
}

// So many words from a place on, each with a space before it.
fn put_chosen(
    out: &mut Vec<u8>,
    words: &Vec<String>,
    place: usize,
    count: usize,
) -> Result<(), OutOfMemory>
    ensures { OnOk result (out.new.items ≡ out.old.items ++ words_at (map string_bytes words.now.items) place count) }
{
    put_words(out, front_of(from_place(words, place), count))
}

// So many words from a place on, on a line.
fn put_words_at(
    out: &mut Vec<u8>,
    words: &Vec<String>,
    place: usize,
    count: usize,
) -> Result<(), OutOfMemory>
    ensures { OnOk result (out.new.items
        ≡ out.old.items ++ codes "wrong:" ++ words_at (map string_bytes words.now.items) place count ++ codes "\n") }
{
    out.extend_from_slice(b"wrong:")?;
    put_chosen(out, words, place, count)?;
    out.extend_from_slice(b"\n")
}

// What is said of two words that can be left out at a place, if they can.
fn put_two(out: &mut Vec<u8>, words: &Vec<String>, place: Option<usize>) -> Result<(), OutOfMemory>
    ensures { OnOk result (out.new.items ≡ out.old.items ++ said_of_two (map string_bytes words.now.items) place) }
{
    match place {
        Some(place) => put_words_at(out, words, place, 2),
        None => out.extend_from_slice(
            b"no words can be left out: one is missing, or the first is no job\n",
        ),
    }
}

/// Appends which words are wrong, where the words, the program's name first, are refused: the last word that can be
/// left out so that a call is left; or the last two such words that stand behind one another; or that none can be. An
/// error is want of memory.
pub fn put_wrong(alloc: Global, out: &mut Vec<u8>, words: &Vec<String>) -> Result<(), OutOfMemory>
    ensures { OnOk result (out.new.items ≡ out.old.items ++ said_wrong (map string_bytes words.now.items)) }
{
    match wrong_place(alloc, words, 1)? {
        Some(place) => put_words_at(out, words, place, 1),
        None => put_two(out, words, wrong_place(alloc, words, 2)?),
    }
}

// The text of the error that words name.
ghost use Rattle.std.specs.Prelude.{◌≡◌, ◌∷◌, ◌++◌, drop, map, option_map, string_bytes, IfOk, OnOk};
ghost use Rattle.std.specs.List.{find, flat_map};
ghost use Rattle.explanations.specs.Texts.{has_name, all_texts};
ghost use Rattle.tool_command.specs.ExplainAnswers.{title};

use explanations::meanings::text_named;
use op_num::OutOfMemory;
use std::alloc::Global;

// Words, each with a space before it.
fn put_words(out: &mut Vec<u8>, words: &[String]) -> Result<(), OutOfMemory>
    ensures { OnOk result (out.new.items ≡ out.old.items ++ flat_map (λ w. 32 ∷ w) (map string_bytes words.now)) }
{
    for word in words {
        out.push(b' ')?;
        out.extend_from_slice(word.as_bytes())?;
    }
    Ok(())
}

// The words behind the first, each with a space before it.
fn spaced(alloc: Global, words: &Vec<String>) -> Result<Vec<u8>, OutOfMemory>
    ensures { IfOk result (λ v. v.items ≡ flat_map (λ w. 32 ∷ w) (drop 1 (map string_bytes words.now.items))) }
{
    let mut out = Vec::new(alloc);
    if let Some((_program, rest)) = words.split_first() {
        put_words(&mut out, rest)?;
    }
    Ok(out)
}

// The bytes behind the first.
fn behind_first(bytes: &[u8]) -> &[u8]
    ensures { result.now ≡ drop 1 bytes.now }
{
    match bytes.split_first() {
        Some((_first, rest)) => rest,
        None => bytes,
    }
}

/// The text of the error that the words behind the first name, or none. An error is want of memory.
pub fn text_by(alloc: Global, words: &Vec<String>) -> Result<Option<&'static [u8]>, OutOfMemory>
    ensures { IfOk result (λ t. option_map (λ s. s.now) t ≡ find (has_name (title (map string_bytes words.now.items))) all_texts) }
{
    let name = spaced(alloc, words)?;
    Ok(text_named(behind_first(&name)))
}

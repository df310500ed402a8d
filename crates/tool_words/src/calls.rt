// A call of `op2` that is to be explained.

ghost use Rattle.std.specs.Prelude.{◌≡◌, ◌∷◌, map, codes, string_bytes, IfOk};
ghost use Rattle.tool_words.specs.Words.{call_in};
ghost use Rattle.tool_words.specs.Values.{call_of};

use std::alloc::{AllocError, Global};

// The name of `op2`, and these words.
fn call_of(alloc: Global, words: &[String]) -> Result<Vec<String>, AllocError>
    ensures { IfOk result (λ v. map string_bytes v.items ≡ codes "op2" ∷ map string_bytes words.now) }
{
    let mut call = Vec::new(alloc);
    call.push(String::from_str(alloc, "op2")?)?;
    let mut rest = words;
    while let [word, more @ ..] = rest {
        call.push(word.clone()?)?;
        rest = more;
    }
    Ok(call)
}

/// The words of a call of `op2` that is to be explained, its name first: those behind `explain`, whatever they are;
/// none where the second of the words, the program's name first, is another. An error is want of memory.
pub fn call_in(alloc: Global, words: &Vec<String>) -> Result<Option<Vec<String>>, AllocError>
    ensures { IfOk result (λ call. call_of call ≡ call_in (map string_bytes words.now.items)) }
{
    match words.as_slice() {
        [_, job, rest @ ..] if job.as_str() == "explain" => Ok(Some(call_of(alloc, rest)?)),
        _ => Ok(None),
    }
}

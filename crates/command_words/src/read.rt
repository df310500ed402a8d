// What the words ask for, by `clap`'s matches of them.

ghost use Rattle.std.specs.Prelude.{◌≡◌, ◌∷◌, [], List, map, codes, string_bytes, option_map, Ok, Err, IfOk};
ghost use Rattle.clap.specs.Matches.{found_of, first_value};
ghost use Rattle.clap.specs.Values.{kind_of};
ghost use Rattle.clap.specs.Walk.{Row};
ghost use Rattle.clap.specs.declared.error.kind.ErrorKind.TheVariants as kind;
ghost use Rattle.op_num.specs.Automaton.{IsGiven, IsRefused};
ghost use Rattle.command_words.specs.Refusal.{Usage as usage};
ghost use Rattle.command_words.specs.Words.{Command, asked, judged, is_set, WordsAre};
ghost use Rattle.command_words.specs.declared.refusals.WordsRefusal.TheVariants.{Usage, OutOfMemory};
ghost use Rattle.command_words.specs.Values.{option_words_of, options_found, command_of, IsInRange, AsksBy};

use crate::asked::Asked;
use crate::command::matched;
use crate::jobs::{JobWords, by_job};
use crate::laws::{one_fault, options_are_within};
use crate::options::OptionWords;
use crate::refusals::WordsRefusal;
use clap::error::ErrorKind;
use clap::{ArgMatches, Error};
use std::alloc::Global;

/// What the words, the program's name first, ask for. `Usage`: the words are not those of a command. `OutOfMemory`: for
/// want of memory alone.
pub fn read_words<'a>(alloc: Global, words: &'a Vec<String>) -> Result<Asked<'a>, WordsRefusal>
    // What is given is what the words ask for, and its numbers are in range.
    ensures ok { IfOk result (λ a. WordsAre (map string_bytes words.now.items) (Ok (command_of a))) }
    ensures in_range { IfOk result IsInRange }
    // What the words ask for is given, unless memory runs out.
    ensures only { (c : Command) → WordsAre (map string_bytes words.now.items) (Ok c)
        → IsGiven OutOfMemory result (λ a. command_of a ≡ c) }
    // The words are refused where they are those of no command.
    ensures refused { result ≡ Err Usage → WordsAre (map string_bytes words.now.items) (Err usage) }
    // And words of no command are refused, unless memory runs out.
    ensures refuses { WordsAre (map string_bytes words.now.items) (Err usage) → IsRefused OutOfMemory result Usage }
{
    one_fault();
    options_are_within();
    match matched(alloc, words) {
        Ok(matches) => job_of(&matches),
        Err(error) => refused(&error),
    }
}

// What words ask for that `clap` has matched.
fn job_of<'a>(matches: &ArgMatches<'a>) -> Result<Asked<'a>, WordsRefusal>
    ensures { AsksBy result (asked (first_value (found_of matches.now) (codes "JOB"))
        (first_value (found_of matches.now) (codes "INPUT")) (first_value (found_of matches.now) (codes "MESH"))
        (options_found (found_of matches.now))) }
{
    let (Some(job), Some(input)) = (matches.get_str("JOB"), matches.get_str("INPUT")) else {
        return Err(WordsRefusal::Usage);
    };
    let words = JobWords {
        input,
        mesh: matches.get_str("MESH"),
        options: option_words(matches),
    };
    match by_job(job, &words) {
        Some(asked) => Ok(asked),
        None => Err(WordsRefusal::Usage),
    }
}

// The values of the options, as `clap` has matched them.
fn option_words<'a>(matches: &ArgMatches<'a>) -> OptionWords<'a>
    ensures { option_words_of result ≡ options_found (found_of matches.now) }
{
    OptionWords {
        form: matches.get_str("form"),
        ranks: matches.get_str("ranks"),
        parts: matches.get_str("parts"),
        partition: matches.get_str("partition"),
        renumber: matches.get_str("renumber"),
        block: matches.get_str("block"),
        plan: matches.get_str("plan"),
        at: matches.get_str("at"),
        from: matches.get_str("from"),
        schedule: matches.get_str("schedule"),
        seed: matches.get_str("seed"),
        workers: matches.get_str("workers"),
        chains: is_set(matches.get_str("chain")),
        dumps: is_set(matches.get_str("dump")),
    }
}

/// Whether a flag's value says that it stands.
pub fn is_set(word: Option<&str>) -> bool
    ensures { result ≡ is_set (option_map (λ s. s.now) word.entry) }
{
    word == Some("true")
}

// What words ask for that `clap` hasn't matched: `--help` and `--version` have errors of their own.
fn refused<'a>(error: &Error) -> Result<Asked<'a>, WordsRefusal>
    ensures kind { (rows : List Row) → AsksBy result (judged (kind_of error.now ∷ []) rows) }
    ensures memory { kind_of error.now ≡ kind.OutOfMemory → result ≡ Err OutOfMemory }
{
    match error.kind() {
        ErrorKind::DisplayHelp => Ok(Asked::Usage),
        ErrorKind::DisplayVersion => Ok(Asked::Version),
        ErrorKind::OutOfMemory => Err(WordsRefusal::OutOfMemory),
        _ => Err(WordsRefusal::Usage),
    }
}

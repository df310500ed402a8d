// What the words ask for, by `clap`'s matches of them.

ghost use Rattle.std.specs.Prelude.{◌≡◌, map, codes, string_bytes, Some, Err, IfOk};
ghost use Rattle.clap.specs.Matches.{found_of, first_value};
ghost use Rattle.clap.specs.Values.{kind_of};
ghost use Rattle.clap.specs.declared.error.kind.ErrorKind.TheVariants as kind;
ghost use Rattle.tool_words.specs.Words.{Explains, asked, by_kind, call_in};
ghost use Rattle.command_words.specs.declared.refusals.WordsRefusal.TheVariants.{OutOfMemory};
ghost use Rattle.command_words.specs.Values.{option_words_of};
ghost use Rattle.tool_words.specs.Values.{call_of, given_of, own_of, planning_found, own_found, given_found, AsksBy, IsRead, IsInRange};

use crate::asked::Asked;
use crate::command::matched;
use crate::given::{Given, OwnWords};
use crate::jobs::by_name;
use clap::error::ErrorKind;
use clap::{ArgMatches, Error};
use command_words::{OptionWords, WordsRefusal, is_set, option_words_are_within};
use std::alloc::Global;

/// What the words, the program's name first, ask for, where `call` is the call in them that is to be explained, if they
/// have one, as `call_in` gives it. `Usage`: the words are not those of a command. `OutOfMemory`: for want of memory
/// alone.
pub fn read_words<'a>(
    alloc: Global,
    words: &'a Vec<String>,
    call: &'a Option<Vec<String>>,
) -> Result<Asked<'a>, WordsRefusal>
    requires { call_of call.now ≡ call_in (map string_bytes words.now.items) }
    ensures is { IsRead (map string_bytes words.now.items) result }
    ensures in_range { IfOk result IsInRange }
{
    option_words_are_within();
    if let Some(call) = call {
        return explained(call);
    }
    match matched(alloc, words) {
        Ok(matches) => job_of(&matches),
        Err(error) => refused(&error),
    }
}

// What words with this call ask for.
fn explained<'a>(call: &'a Vec<String>) -> Result<Asked<'a>, WordsRefusal>
    ensures { AsksBy result (Some (Explains (map string_bytes call.now.items))) }
{
    Ok(Asked::Explain { call })
}

// What words are asked for that `clap` has matched.
fn job_of<'a>(matches: &ArgMatches<'a>) -> Result<Asked<'a>, WordsRefusal>
    ensures { AsksBy result (asked (first_value (found_of matches.now) (codes "JOB")) (given_found (found_of matches.now))) }
{
    let Some(job) = matches.get_str("JOB") else {
        return Err(WordsRefusal::Usage);
    };
    match by_name(job, &given(matches)) {
        Some(asked) => Ok(asked),
        None => Err(WordsRefusal::Usage),
    }
}

// The values of the options of a plan, as `clap` has matched them.
fn planning<'a>(matches: &ArgMatches<'a>) -> OptionWords<'a>
    ensures { option_words_of result ≡ planning_found (found_of matches.now) }
{
    OptionWords {
        form: None,
        ranks: matches.get_str("ranks"),
        parts: matches.get_str("parts"),
        partition: matches.get_str("partition"),
        renumber: matches.get_str("renumber"),
        block: matches.get_str("block"),
        plan: matches.get_str("plan"),
        at: None,
        from: None,
        schedule: None,
        seed: None,
        workers: None,
        chains: false,
        dumps: false,
    }
}

// The values of the options of single jobs, as `clap` has matched them.
fn own_words<'a>(matches: &ArgMatches<'a>) -> OwnWords<'a>
    ensures { own_of result ≡ own_found (found_of matches.now) }
{
    OwnWords {
        coords: matches.get_str("coords"),
        cells: matches.get_str("cells"),
        halos: matches.get_str("halos"),
        colours: matches.get_str("colours"),
        output: matches.get_str("output"),
        plain: is_set(matches.get_str("plain")),
        metis: matches.get_str("metis"),
        set: matches.get_str("set"),
        scale: matches.get_str("scale"),
        dim: matches.get_str("dim"),
        source: is_set(matches.get_str("source")),
    }
}

// The words behind the job's name and the options, as `clap` has matched them.
fn given<'a>(matches: &ArgMatches<'a>) -> Given<'a>
    ensures { given_of result ≡ given_found (found_of matches.now) }
{
    Given {
        first: matches.get_str("FIRST"),
        second: matches.get_str("SECOND"),
        third: matches.get_str("THIRD"),
        fourth: matches.get_str("FOURTH"),
        fifth: matches.get_str("FIFTH"),
        planning: planning(matches),
        own: own_words(matches),
    }
}

// What words are asked for that `clap` has not: `--help` and `--version` have errors of their own.
fn refused<'a>(error: &Error) -> Result<Asked<'a>, WordsRefusal>
    ensures asks { AsksBy result (by_kind (kind_of error.now)) }
    ensures memory { kind_of error.now ≡ kind.OutOfMemory → result ≡ Err OutOfMemory }
{
    match error.kind() {
        ErrorKind::DisplayHelp => Ok(Asked::Usage),
        ErrorKind::DisplayVersion => Ok(Asked::Version),
        ErrorKind::OutOfMemory => Err(WordsRefusal::OutOfMemory),
        _ => Err(WordsRefusal::Usage),
    }
}

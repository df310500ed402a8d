// The command as `clap` has it, and what it matches.

ghost use Rattle.std.specs.Prelude.{◌≡◌, [], List, map, false, string_bytes, IfOk, IfErr};
ghost use Rattle.clap.specs.Matches.{found_of};
ghost use Rattle.clap.specs.Faults.{fault_of};
ghost use Rattle.clap.specs.Kinds.{HasKind};
ghost use Rattle.clap.specs.Simple.{app_of, matches_of};
ghost use Rattle.clap.specs.Walk.{rows_of, rule_of};
ghost use Rattle.command_words.specs.Words.{command, with_rules};
ghost use Rattle.command_words.specs.Values.{word_rule};

use crate::usage::VERSION;
use clap::{Arg, ArgAction, ArgMatches, Command, Error};
use std::alloc::{AllocError, Global};

/// A rule of a command: a word or an option that it takes, by its name.
#[derive(Clone, Copy, Debug)]
pub enum WordRule<'a> {
    /// A word without a `-`, which has to stand.
    Required(&'a str),
    /// A word without a `-`, which may stand.
    Optional(&'a str),
    /// An option with one value, `--ID VALUE` or `--ID=VALUE`.
    Valued(&'a str),
    /// An option with no value, `--ID`.
    Flag(&'a str),
}

// The word or option of a rule, as `clap` takes it.
fn arg_of<'a>(alloc: Global, rule: WordRule<'a>) -> Arg<'a>
    ensures same { rule_of result ≡ word_rule rule.entry }
    ensures own { result.global ≡ false }
{
    match rule {
        WordRule::Required(id) => Arg::new(alloc, id).required(true),
        WordRule::Optional(id) => Arg::new(alloc, id),
        WordRule::Valued(id) => Arg::new(alloc, id).long(id),
        WordRule::Flag(id) => Arg::new(alloc, id).long(id).action(ArgAction::SetTrue),
    }
}

/// The command with further rules, one behind the other. An error is want of memory.
pub fn with_rules<'a>(
    alloc: Global,
    command: Command<'a>,
    rules: &[WordRule<'a>],
) -> Result<Command<'a>, AllocError>
    ensures { IfOk result (λ c. app_of c ≡ with_rules (app_of command.entry) (map word_rule rules.now)) }
{
    let mut command = command;
    let mut rest = rules;
    while let [rule, more @ ..] = rest {
        command = command.arg(arg_of(alloc, *rule))?;
        rest = more;
    }
    Ok(command)
}

// The command: `op2 JOB INPUT [MESH]` with its options, `--help` and `--version`.
fn command<'a>(alloc: Global) -> Result<Command<'a>, AllocError>
    ensures { IfOk result (λ c. app_of c ≡ command) }
{
    let command = Command::new(alloc, "op2").version(VERSION);
    with_rules(
        alloc,
        command,
        &[
            WordRule::Required("JOB"),
            WordRule::Required("INPUT"),
            WordRule::Optional("MESH"),
            WordRule::Valued("form"),
            WordRule::Valued("ranks"),
            WordRule::Valued("parts"),
            WordRule::Valued("partition"),
            WordRule::Valued("renumber"),
            WordRule::Valued("block"),
            WordRule::Valued("plan"),
            WordRule::Valued("at"),
            WordRule::Valued("from"),
            WordRule::Valued("schedule"),
            WordRule::Valued("seed"),
            WordRule::Valued("workers"),
            WordRule::Flag("chain"),
            WordRule::Flag("dump"),
        ],
    )
}

/// What `clap` matches of the words, the program's name first, or its refusal.
pub fn matched<'a>(alloc: Global, words: &'a Vec<String>) -> Result<ArgMatches<'a>, Error>
    ensures ok { IfOk result (λ m. (fault_of command (map string_bytes words.now.items) ≡ [])
        × (rows_of (found_of m) ≡ matches_of command (map string_bytes words.now.items))) }
    ensures err { IfErr result (HasKind (fault_of command (map string_bytes words.now.items))) }
{
    command(alloc)?.try_get_matches_from(words.as_slice())
}

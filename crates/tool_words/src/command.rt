// The command as `clap` has it, and what it matches.

ghost use Rattle.std.specs.Prelude.{◌≡◌, [], List, map, string_bytes, IfOk, IfErr};
ghost use Rattle.clap.specs.Matches.{found_of};
ghost use Rattle.clap.specs.Faults.{fault_of};
ghost use Rattle.clap.specs.Kinds.{HasKind};
ghost use Rattle.clap.specs.Simple.{app_of, matches_of};
ghost use Rattle.clap.specs.Walk.{rows_of};
ghost use Rattle.tool_words.specs.Words.{command};

use crate::usage::VERSION;
use clap::{ArgMatches, Command, Error};
use command_words::{WordRule, with_rules};
use std::alloc::{AllocError, Global};

// The command: `op2-tools JOB WORD ..` with its options, `--help` and `--version`.
fn command<'a>(alloc: Global) -> Result<Command<'a>, AllocError>
    ensures { IfOk result (λ c. app_of c ≡ command) }
{
    let command = Command::new(alloc, "op2-tools").version(VERSION);
    with_rules(
        alloc,
        command,
        &[
            WordRule::Required("JOB"),
            WordRule::Optional("FIRST"),
            WordRule::Optional("SECOND"),
            WordRule::Optional("THIRD"),
            WordRule::Optional("FOURTH"),
            WordRule::Optional("FIFTH"),
            WordRule::Valued("ranks"),
            WordRule::Valued("parts"),
            WordRule::Valued("partition"),
            WordRule::Valued("renumber"),
            WordRule::Valued("block"),
            WordRule::Valued("plan"),
            WordRule::Valued("coords"),
            WordRule::Valued("cells"),
            WordRule::Valued("halos"),
            WordRule::Valued("colours"),
            WordRule::Valued("output"),
            WordRule::Valued("metis"),
            WordRule::Valued("set"),
            WordRule::Valued("scale"),
            WordRule::Valued("dim"),
            WordRule::Flag("plain"),
            WordRule::Flag("source"),
        ],
    )
}

/// What `clap` matches of the words, the program's name first, or its refusal.
pub fn matched<'a>(alloc: Global, words: &'a Vec<String>) -> Result<ArgMatches<'a>, Error>
    ensures ok { IfOk result (λ m. (fault_of command (map string_bytes words.now.items) ≡ [])
        × (rows_of (found_of m) ≡ matches_of command (map string_bytes words.now.items))) }
    ensures err { IfErr result (HasKind (fault_of command (map string_bytes words.now.items))) }
{
    command(alloc)?.try_get_matches_from(words.as_slice())
}

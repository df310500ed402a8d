// The options of a plan, and of a run by chains, from the values that the words have.

ghost use Rattle.std.specs.Prelude.{◌≡◌, ◌<◌, ◌≤◌, option_map, IfSome};
ghost use Rattle.partition.specs.Parts.{name_of};
ghost use Rattle.command_words.specs.Words.{number_to, number_or, is_unplanned, runs_nothing, behind, rule_of, parting_of};
ghost use Rattle.command_words.specs.Words.{seed_of, schedule_of, blocks_of, item_of, stretch_of};
ghost use Rattle.command_words.specs.Words.{options_of, chain_options_of, goes_to_the_end, is_whole, plans_itself, stops_at_an_item};
ghost use Rattle.command_words.specs.Values.{option_words_of, rule_in, parting_in, schedule_in, blocks_in, stretch_in};
ghost use Rattle.command_words.specs.Values.{options_in, chain_options_in};

use crate::asked::{Blocks, ChainOptions, Options, Parting, Rule, Schedule, Stretch};
use crate::limits::{MAX_BLOCK, MAX_RANKS, MAX_WORKERS};
use op_num::read_u64;

/// The values of the options, as the words have them, and whether the flags stand.
#[derive(Clone, Copy, Debug)]
pub struct OptionWords<'a> {
    pub form: Option<&'a str>,
    pub ranks: Option<&'a str>,
    pub parts: Option<&'a str>,
    pub partition: Option<&'a str>,
    pub renumber: Option<&'a str>,
    pub block: Option<&'a str>,
    pub plan: Option<&'a str>,
    pub at: Option<&'a str>,
    pub from: Option<&'a str>,
    pub schedule: Option<&'a str>,
    pub seed: Option<&'a str>,
    pub workers: Option<&'a str>,
    pub chains: bool,
    pub dumps: bool,
}

/// A number from 1 to the most, in decimal digits.
pub fn number_to(most: u32, word: &str) -> Option<u32>
    ensures number { result ≡ number_to most word.now }
    ensures within { IfSome result (λ n. (0 < n) × (n ≤ most)) }
{
    let Ok(number) = read_u64(word.as_bytes()) else {
        return None;
    };
    if number > 0 && number <= u64::from(most) {
        Some(number as u32)
    } else {
        None
    }
}

// A number from 1 to the most, in decimal digits; the usual number, where no word says which.
fn number_or(usual: u32, most: u32, word: Option<&str>) -> Option<u32>
    ensures { result ≡ number_or usual most (option_map (λ s. s.now) word.entry) }
{
    match word {
        None => Some(usual),
        Some(word) => number_to(most, word),
    }
}

/// Whether none stands of the options that say by which plan a program runs, and which of its items.
pub fn is_unplanned(words: &OptionWords<'_>) -> bool
    ensures { result ≡ is_unplanned (option_words_of words.now) }
{
    words.renumber.is_none()
        && words.block.is_none()
        && words.plan.is_none()
        && is_whole(words)
        && words.schedule.is_none()
        && words.seed.is_none()
        && words.workers.is_none()
}

/// Whether none stands of the options of a program's run.
pub fn runs_nothing(words: &OptionWords<'_>) -> bool
    ensures { result ≡ runs_nothing (option_words_of words.now) }
{
    words.ranks.is_none()
        && words.parts.is_none()
        && words.partition.is_none()
        && !words.chains
        && !words.dumps
        && is_unplanned(words)
}

/// Whether no item is named at which the run ends.
pub fn goes_to_the_end(words: &OptionWords<'_>) -> bool
    ensures { result ≡ goes_to_the_end (option_words_of words.now) }
{
    words.at.is_none()
}

/// Whether all items run.
pub fn is_whole(words: &OptionWords<'_>) -> bool
    ensures { result ≡ is_whole (option_words_of words.now) }
{
    words.at.is_none() && words.from.is_none()
}

/// Whether all items run, and no file gives the plan.
pub fn plans_itself(words: &OptionWords<'_>) -> bool
    ensures { result ≡ plans_itself (option_words_of words.now) }
{
    is_whole(words) && words.plan.is_none()
}

/// Whether the items before one run, no file gives the plan, and nothing is dumped.
pub fn stops_at_an_item(words: &OptionWords<'_>) -> bool
    ensures { result ≡ stops_at_an_item (option_words_of words.now) }
{
    words.at.is_some() && words.from.is_none() && words.plan.is_none() && !words.dumps
}

// What stands behind a prefix, if the word begins with it.
fn behind<'a>(prefix: &[u8], word: &'a str) -> Option<&'a [u8]>
    ensures { name_of result ≡ behind prefix.now word.now }
{
    word.as_bytes().strip_prefix(prefix)
}

// `block`, `bisect:DAT` or `grow:MAP`.
fn rule_of<'a>(word: &'a str) -> Option<Rule<'a>>
    ensures { option_map rule_in result ≡ rule_of word.now }
{
    if word == "block" {
        return Some(Rule::Block);
    }
    if let Some(dat) = behind(b"bisect:", word) {
        return Some(Rule::Bisect(dat));
    }
    Some(Rule::Grow(behind(b"grow:", word)?))
}

// By `--parts`, or by `--partition`, or by blocks; not by both.
fn parting_of<'a>(parts: Option<&'a str>, partition: Option<&'a str>) -> Option<Parting<'a>>
    ensures { option_map parting_in result
        ≡ parting_of (option_map (λ s. s.now) parts.entry) (option_map (λ s. s.now) partition.entry) }
{
    match (parts, partition) {
        (None, None) => Some(Parting::ByRule(Rule::Block)),
        (Some(word), None) => Some(Parting::ByRule(rule_of(word)?)),
        (None, Some(name)) => Some(Parting::ByFile(name)),
        (Some(_), Some(_)) => None,
    }
}

// A number below 2 ^ 64, in decimal digits.
fn seed_of(word: &str) -> Option<u64>
    ensures { result ≡ seed_of word.now }
{
    read_u64(word.as_bytes()).ok()
}

// By `--schedule`, or by `--seed`, or the standard order; not by both.
fn schedule_of<'a>(schedule: Option<&'a str>, seed: Option<&str>) -> Option<Schedule<'a>>
    ensures { option_map schedule_in result
        ≡ schedule_of (option_map (λ s. s.now) schedule.entry) (option_map (λ s. s.now) seed.entry) }
{
    match (schedule, seed) {
        (None, None) => Some(Schedule::Standard),
        (Some(name), None) => Some(Schedule::Written(name)),
        (None, Some(word)) => Some(Schedule::Drawn {
            seed: seed_of(word)?,
        }),
        (Some(_), Some(_)) => None,
    }
}

// By `--plan`, or by `--block`, or blocks of 256 places; not by both.
fn blocks_of<'a>(block: Option<&str>, plan: Option<&'a str>) -> Option<Blocks<'a>>
    ensures { option_map blocks_in result
        ≡ blocks_of (option_map (λ s. s.now) block.entry) (option_map (λ s. s.now) plan.entry) }
{
    match (block, plan) {
        (None, None) => Some(Blocks::OfSize(256)),
        (Some(word), None) => Some(Blocks::OfSize(number_to(MAX_BLOCK, word)?)),
        (None, Some(name)) => Some(Blocks::AsPlanned(name)),
        (Some(_), Some(_)) => None,
    }
}

// A number below 2 ^ 32, in decimal digits.
fn item_of(word: &str) -> Option<u32>
    ensures { result ≡ item_of word.now }
{
    let Ok(number) = read_u64(word.as_bytes()) else {
        return None;
    };
    u32::try_from(number).ok()
}

// By `--at`, or by `--from`, or all items; not by both.
fn stretch_of<'a>(at: Option<&str>, from: Option<&'a str>) -> Option<Stretch<'a>>
    ensures { option_map stretch_in result
        ≡ stretch_of (option_map (λ s. s.now) at.entry) (option_map (λ s. s.now) from.entry) }
{
    match (at, from) {
        (None, None) => Some(Stretch::Whole),
        (Some(word), None) => Some(Stretch::Before {
            item: item_of(word)?,
        }),
        (None, Some(name)) => Some(Stretch::From(name)),
        (Some(_), Some(_)) => None,
    }
}

// A name, as the bytes of its word.
fn named<'a>(word: Option<&'a str>) -> Option<&'a [u8]>
    ensures { name_of result ≡ option_map (λ s. s.now) word.entry }
{
    match word {
        None => None,
        Some(word) => Some(word.as_bytes()),
    }
}

/// All options of a plan.
pub fn options_of<'a>(words: &OptionWords<'a>) -> Option<Options<'a>>
    ensures { option_map options_in result ≡ options_of (option_words_of words.now) }
{
    let stretch = stretch_of(words.at, words.from)?;
    let ranks = number_or(1, MAX_RANKS, words.ranks)?;
    let parting = parting_of(words.parts, words.partition)?;
    let schedule = schedule_of(words.schedule, words.seed)?;
    let blocks = blocks_of(words.block, words.plan)?;
    let workers = number_or(1, MAX_WORKERS, words.workers)?;
    Some(Options {
        stretch,
        ranks,
        parting,
        renumber: named(words.renumber),
        blocks,
        schedule,
        workers,
        dumps: words.dumps,
    })
}

/// Those of a run by chains.
pub fn chain_options_of<'a>(words: &OptionWords<'a>) -> Option<ChainOptions<'a>>
    ensures { option_map chain_options_in result ≡ chain_options_of (option_words_of words.now) }
{
    Some(ChainOptions {
        ranks: number_or(1, MAX_RANKS, words.ranks)?,
        parting: parting_of(words.parts, words.partition)?,
        dumps: words.dumps,
    })
}

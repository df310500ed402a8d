// Reading a schedule text.
ghost use Rattle.std.specs.Prelude.{◌≡◌, ◌+◌, ◌<◌, ◌≤◌, ◌^◌, ◌⊎◌, length, List, ℕ, [], ◌∷◌, ◌++◌, OnOk, IfOk, IfErr, None};
ghost use Rattle.op_num.specs.Spelling.{number_of};
ghost use Rattle.op_num.specs.Cut.{uncut, first_of};
ghost use Rattle.op_num.specs.Automaton.{Answers, IsNext, IsGiven, IsRefused};
ghost use Rattle.schedule_steps.specs.declared.text.lines.Line.{Line as Given};
ghost use Rattle.schedule_steps.specs.declared.text.refusals.ScheduleTextRefusal.{ScheduleTextRefusal as Refusal};
ghost use Rattle.schedule_steps.specs.Token.{keyword_of};
ghost use Rattle.schedule_steps.specs.Spelling.{at_line, Spells};
ghost use Rattle.schedule_steps.specs.Reading.{Begun, First, Magic, Between, Numbers, step_of, opened, numbered, grown, run_from, Refuses};
ghost use Rattle.schedule_steps.specs.Reading.{Reads};
ghost use Rattle.schedule_steps.specs.Reading.{Read as Outcome};
ghost use Rattle.schedule_steps.specs.Answered.{Leads, next_state};

use crate::Step;
use crate::text::lines::{Line, SCHEDULE_STEPS};
use crate::text::refusals::ScheduleTextRefusal;
use crate::text::token::{Keyword, RankWord, StepWord, is_magic, is_version, read_keyword};
use op_num::read_u64;
use op_num::texts::{Token, Tokens};
use std::alloc::Global;

/// The steps that the schedule text `bytes` spells, at most [`SCHEDULE_STEPS`], in order, each with its line. Each
/// refusal is that of the first token, in order, that may not stand where it does, or of the end;
/// `ScheduleTextRefusal` says what each is. Lines are counted in `u32`, so the text has fewer than 2 ^ 32 - 1 bytes. It
/// takes time linear in the bytes.
pub fn read_schedule(alloc: Global, bytes: &[u8]) -> Result<Vec<Line>, ScheduleTextRefusal>
    requires { length bytes.now + 1 < 2 ^ 32 }
    // What is given is spelled so, with no more steps than the limit.
    ensures found { IfOk result (λ v. Spells bytes.now v.items × (length v.items ≤ SCHEDULE_STEPS)) }
    // What is spelled so is given, unless memory runs out.
    ensures only { (ls : List Given) → Spells bytes.now ls → length ls ≤ SCHEDULE_STEPS
        → IsGiven Refusal.OutOfMemory result (λ v. v.items ≡ ls) }
    // Each refusal is the first, in the order of the tokens.
    ensures refused { IfErr result (λ r. (r ≡ Refusal.OutOfMemory) ⊎ Refuses bytes.now r) }
    // And the first refusal is given, unless memory runs out.
    ensures refuses { (r : Refusal) → Refuses bytes.now r → IsRefused Refusal.OutOfMemory result r }
{
    read(alloc, bytes)
}

/// A law: a text spells at most one list of at most [`SCHEDULE_STEPS`] steps.
pub fn one_schedule()
    ensures { (bytes : List ℕ) (a b : List Given) → Spells bytes a → Spells bytes b
        → length a ≤ SCHEDULE_STEPS → length b ≤ SCHEDULE_STEPS → a ≡ b }
{}

/// A law: a text comes to one outcome, its steps within the limit or a refusal, and no refusal is want of memory.
pub fn one_outcome()
    ensures one { (bytes : List ℕ) (a b : Outcome) → Reads bytes a → Reads bytes b → a ≡ b }
    ensures some { (bytes : List ℕ) → (o : Outcome) × Reads bytes o }
    ensures causes { (bytes : List ℕ) → ¬ Refuses bytes Refusal.OutOfMemory }
{}

fn read(alloc: Global, bytes: &[u8]) -> Result<Vec<Line>, ScheduleTextRefusal>
    requires { length bytes.now + 1 < 2 ^ 32 }
    ensures { Answers Refusal.OutOfMemory result (λ v. v.items) (run_from Magic (uncut bytes.now)) }
{
    let mut tokens = Tokens::new(bytes);
    read_header(&mut tokens)?;
    let mut lines = Vec::new(alloc);
    while let Some(line) = next_step(&mut tokens, lines.len() as u64)? {
        lines.push(line)?;
    }
    match tokens.next() {
        None => Ok(lines),
        Some(token) => Err(ScheduleTextRefusal::Syntax { line: token.line() }),
    }
}

fn read_header(tokens: &mut Tokens<'_>) -> Result<(), ScheduleTextRefusal>
    ensures { Leads Magic tokens.old result (λ _. Between []) tokens.new }
{
    let magic = next_in_header(tokens)?;
    if !is_magic(magic.text()) {
        return Err(ScheduleTextRefusal::Header { line: magic.line() });
    }
    let version = next_in_header(tokens)?;
    if !is_version(version.text()) {
        return Err(ScheduleTextRefusal::Header {
            line: version.line(),
        });
    }
    Ok(())
}

// The next step, behind that many others, or none behind `done`.
fn next_step(tokens: &mut Tokens<'_>, count: u64) -> Result<Option<Line>, ScheduleTextRefusal>
    ensures leads { (ls : List Given) → count ≡ length ls → Leads (Between ls) tokens.old result (next_state ls) tokens.new }
    ensures fewer { OnOk result (length tokens.new.words < length tokens.old.words) }
{
    let token = next_in_body(tokens)?;
    match step_word(&token, count)? {
        None => Ok(None),
        Some(word) => {
            let step = read_numbers(tokens, word)?;
            Ok(Some(Line {
                step,
                line: token.line(),
            }))
        }
    }
}

// The first word of a step, behind that many others, or none where the token is `done`.
#[tactic(auto, unfolding(crate::specs::Reading::opened))]
fn step_word(token: &Token<'_>, count: u64) -> Result<Option<StepWord>, ScheduleTextRefusal>
    ensures { result ≡ opened count (keyword_of token.now.text) token.now.line }
{
    match read_keyword(token.text()) {
        Some(Keyword::Step(word)) => {
            if count >= SCHEDULE_STEPS {
                return Err(ScheduleTextRefusal::TooManySteps);
            }
            Ok(Some(word))
        }
        Some(Keyword::Done) => Ok(None),
        None => Err(ScheduleTextRefusal::Syntax { line: token.line() }),
    }
}

// The step with this first word, whose numbers are the next tokens.
fn read_numbers(tokens: &mut Tokens<'_>, word: StepWord) -> Result<Step, ScheduleTextRefusal>
    ensures leads { (ls : List Given) (line : ℕ)
        → Leads (Numbers ls line (First word)) tokens.old result (λ s. Between (ls ++ at_line s line ∷ [])) tokens.new }
    ensures fewer { OnOk result (length tokens.new.words ≤ length tokens.old.words) }
{
    let item = next_number(tokens)?;
    match word {
        StepWord::Join => Ok(Step::Join { item }),
        StepWord::Rank(word) => {
            let second = next_number(tokens)?;
            let third = next_number(tokens)?;
            Ok(rank_step(word, item, second, third))
        }
    }
}

// The step of a rank with these numbers, in the order of the text.
fn rank_step(word: RankWord, item: u32, second: u32, third: u32) -> Step
    ensures { result ≡ step_of word item second third }
{
    match word {
        RankWord::Send => Step::Send {
            item,
            from: second,
            to: third,
        },
        RankWord::Recv => Step::Recv {
            item,
            rank: second,
            from: third,
        },
        RankWord::Begin => Step::Begin {
            item,
            rank: second,
            place: third,
        },
        RankWord::End => Step::End {
            item,
            rank: second,
            place: third,
        },
    }
}

// The next number of a step.
fn next_number(tokens: &mut Tokens<'_>) -> Result<u32, ScheduleTextRefusal>
    ensures leads { (ls : List Given) (line : ℕ) (b : Begun) → Leads (Numbers ls line b) tokens.old result (grown ls line b) tokens.new }
    ensures fewer { OnOk result (length tokens.new.words < length tokens.old.words) }
{
    number_value(&next_in_body(tokens)?)
}

// The number that a token is.
#[tactic(auto, unfolding(crate::specs::Reading::numbered))]
fn number_value(token: &Token<'_>) -> Result<u32, ScheduleTextRefusal>
    ensures { result ≡ numbered (number_of token.now.text) token.now.line }
{
    match read_u64(token.text()) {
        Ok(value) => {
            if value > 4294967295 {
                return Err(ScheduleTextRefusal::Syntax { line: token.line() });
            }
            Ok(value as u32)
        }
        Err(_) => Err(ScheduleTextRefusal::Syntax { line: token.line() }),
    }
}

fn next_in_header<'a>(tokens: &mut Tokens<'a>) -> Result<Token<'a>, ScheduleTextRefusal>
    ensures some { IfOk result (IsNext tokens.old tokens.new) }
    ensures none { IfErr result (λ e. (first_of tokens.old ≡ None) × (e ≡ Refusal.Header tokens.old.last)) }
{
    match tokens.next() {
        Some(token) => Ok(token),
        None => Err(ScheduleTextRefusal::Header {
            line: tokens.last(),
        }),
    }
}

fn next_in_body<'a>(tokens: &mut Tokens<'a>) -> Result<Token<'a>, ScheduleTextRefusal>
    ensures some { IfOk result (IsNext tokens.old tokens.new) }
    ensures none { IfErr result (λ e. (first_of tokens.old ≡ None) × (e ≡ Refusal.Syntax tokens.old.last)) }
{
    match tokens.next() {
        Some(token) => Ok(token),
        None => Err(ScheduleTextRefusal::Syntax {
            line: tokens.last(),
        }),
    }
}

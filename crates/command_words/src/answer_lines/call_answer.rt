// An answer to a call of the program: the bytes for the output, and the line for the errors.

ghost use Rattle.std.specs.Prelude.{◌≡◌, IfOk};
ghost use Rattle.command_words.specs.Refusal.{status_of};
ghost use Rattle.command_words.specs.Lines as lines;
ghost use Rattle.command_words.specs.Halts.{refusal_of, answer_of};

use crate::answer_lines::lines::put_refusal;
use crate::answer_lines::refusals::Refusal;
use op_num::OutOfMemory;
use std::alloc::Global;

/// An answer: the bytes for the output, and the line for the errors.
#[derive(Debug, Drop)]
pub enum Answer {
    /// All is well, and these bytes are the output.
    Done(Vec<u8>),
    /// A run had a fault, and this was printed before it.
    Faulted { out: Vec<u8>, line: Vec<u8> },
    /// The words or a file are refused, with this status.
    Refused { status: u8, line: Vec<u8> },
}

/// The answer with status 0 that has `text` as its output. An error is want of memory.
pub fn done(alloc: Global, text: &str) -> Result<Answer, OutOfMemory>
    ensures { IfOk result (λ a. answer_of a ≡ lines.done text.now) }
{
    Ok(Answer::Done(text.as_bytes().to_vec(alloc)?))
}

// The status of a refusal.
fn status_of(refusal: &Refusal<'_>) -> u8
    ensures { result ≡ status_of (refusal_of refusal.now) }
{
    match refusal {
        Refusal::Usage => 2,
        Refusal::CannotRead(_) => 3,
        Refusal::NoTokens { .. } => 5,
        Refusal::NoTree { .. } => 5,
        Refusal::TooDeep { .. } => 5,
        Refusal::BadName { .. } => 5,
        Refusal::BadBinding { .. } => 5,
        Refusal::BadTarget { .. } => 5,
        Refusal::BadAccess { .. } => 5,
        Refusal::BadMesh { .. } => 6,
        Refusal::BadCut { .. } => 13,
        Refusal::BadState { .. } => 13,
        Refusal::BadPart(_) => 7,
        Refusal::BadPartition { .. } => 7,
        Refusal::BadPlan { .. } => 12,
        Refusal::BadSchedule { .. } => 8,
        Refusal::BadStep { .. } => 8,
        Refusal::EarlyStep { .. } => 8,
        Refusal::LeftStep { .. } => 8,
        Refusal::BadStub { .. } => 14,
        Refusal::BeyondLimit { .. } => 10,
    }
}

/// The answer of a refusal: its status, and its line for the errors. An error is want of memory.
pub fn refused(alloc: Global, refusal: &Refusal<'_>) -> Result<Answer, OutOfMemory>
    ensures { IfOk result (λ a. answer_of a ≡ lines.refused (refusal_of refusal.now)) }
{
    let mut line = Vec::new(alloc);
    put_refusal(&mut line, refusal)?;
    Ok(Answer::Refused {
        status: status_of(refusal),
        line,
    })
}

// What a call writes at its end.

ghost use Rattle.std.specs.Prelude.{◌≡◌};
ghost use Rattle.answers.specs.Endings.{ending_status, ending_line, ending_of, Writes};
ghost use Rattle.command_words.specs.Halts.{answer_of};
ghost use Rattle.command_words.specs.Reports.{Stands};

use command_words::answer_lines::{Answer, Failure, Line, report};
use op_outside::{Sink, write_all_of};

/// Writes an answer, its bytes to `out` and its line to `err`, and gives the status.
///
/// Where `out` fails, the status is 4 and `err` gets that line; but a run with a fault keeps its own. A line that can't
/// be written changes no status.
pub fn write_answer<O: Sink, E: Sink>(answer: &Answer, out: &mut O, err: &mut E) -> u8
    ensures { Writes (answer_of answer.now) result (O.faults out.old, O.faults out.new) (O.written out.old, O.written out.new)
        (Stands (E.faults err.old, E.faults err.new) (E.written err.old, E.written err.new)) }
{
    match answer {
        Answer::Done(bytes) => match write_all_of(out, bytes) {
            Ok(()) => 0,
            Err(_) => report(err, Line::CannotWrite),
        },
        Answer::Faulted { out: bytes, line } => {
            let _ = write_all_of(out, bytes);
            let _ = write_all_of(err, line);
            9
        }
        Answer::Refused { status, line } => {
            let _ = write_all_of(err, line);
            *status
        }
    }
}

/// Writes the line of a call that has no answer to `err`, whole or a front of it where a write fails, and gives the
/// status.
pub fn write_failure<E: Sink>(failure: Failure<'_>, err: &mut E) -> u8
    ensures status { result ≡ ending_status (ending_of failure.entry) }
    ensures said { Stands (E.faults err.old, E.faults err.new) (E.written err.old, E.written err.new)
        (ending_line (ending_of failure.entry)) }
{
    match failure {
        Failure::Unread(name) => report(err, Line::CannotRead(name)),
        Failure::OutOfMemory => report(err, Line::OutOfMemory),
    }
}

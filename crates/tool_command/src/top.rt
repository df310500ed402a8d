// The whole of what the program does.

ghost use Rattle.std.specs.Prelude.{map, string_bytes};
ghost use Rattle.tool_command.specs.Endings.{AreLent, Ends};

use crate::answered::answered;
use answers::answer_writing::{write_answer, write_failure};
use command_words::answer_lines::Failure;
use op_outside::{Shelf, Sink};
use std::alloc::Global;
use std::marker::Sync;
use std::thread::Threads;
use tool_words::call_in;

/// Does what the words say, and answers the status that the program ends with.
///
/// `words` has the program's name first; `op2-tools --help` tells what may stand behind it. What is written to `out` is
/// written at the end. Where the call ends with another status than 0, one line is written to `err`, and where it is
/// neither 0 nor 4, nothing to `out`. `rt` starts the threads of the `--workers` of a call that is explained.
pub fn tools<R: Threads + Sync, F: Shelf, O: Sink, E: Sink>(
    rt: &R,
    alloc: Global,
    words: &Vec<String>,
    shelf: &mut F,
    out: &mut O,
    err: &mut E,
) -> u8
    requires { AreLent (λ name. F.lends shelf.old name) (map string_bytes words.now.items) }

    // The call has one of the endings, with its cause, its status and its line: by the answer that the words and the
    // files have.
    ensures { Ends (record {
      words = map string_bytes words.now.items;
      told = F.told shelf.old;
      reads = (F.faults shelf.old, F.faults shelf.new);
      writes = (O.faults out.old, O.faults out.new);
      reports = (E.faults err.old, E.faults err.new);
      out = (O.written out.old, O.written out.new);
      err = (E.written err.old, E.written err.new);
    }) result }
{
    let call = match call_in(alloc, words) {
        Ok(call) => call,
        Err(_) => return write_failure(Failure::OutOfMemory, err),
    };
    match answered(rt, alloc, words, &call, shelf) {
        Ok(answer) => write_answer(&answer, out, err),
        Err(failure) => write_failure(failure, err),
    }
}

// The whole of what the program does.

ghost use Rattle.std.specs.Prelude.{All, map, string_bytes};
ghost use Rattle.command_words.specs.Words.{named_by};
ghost use Rattle.op2_command.specs.Writes.{EndsAsDefined};

use crate::answered::answer_to;
use answers::answer_writing::{write_answer, write_failure};
use answers::laws::{
    calls_are_complete, calls_report_their_answers, calls_show_their_answers, others_write_nothing,
    unread_files_are_named, usage_is_of_words,
};
use op_outside::{Shelf, Sink};
use par_exec::{Gate, Open};
use std::alloc::Global;
use std::marker::Sync;
use std::thread::Threads;

/// Does what the words say, and answers the status that the program ends with.
///
/// `words` has the program's name first; `op2 --help` tells what may stand behind it. What is written to `out` is
/// written at the end. Where the call ends with another status than 0, one line is written to `err`, and where it is
/// neither 0, 4 nor 9, nothing to `out`. `rt` starts the threads of `--workers`.
pub fn op2<R: Threads + Sync, F: Shelf, O: Sink, E: Sink>(
    rt: &R,
    alloc: Global,
    words: &Vec<String>,
    shelf: &mut F,
    out: &mut O,
    err: &mut E,
) -> u8
    requires { All (λ name. F.lends shelf.old name) (named_by (map string_bytes words.now.items)) }

    // The call has one ending, with its cause, its status and its line; and so its status, its output and its line are
    // those of any answer that the files tell, as far as nothing failed outside.
    ensures { EndsAsDefined (record {
      words = map string_bytes words.now.items;
      told = F.told shelf.old;
      reads = (F.faults shelf.old, F.faults shelf.new);
      writes = (O.faults out.old, O.faults out.new);
      reports = (E.faults err.old, E.faults err.new);
      out = (O.written out.old, O.written out.new);
      err = (E.written err.old, E.written err.new);
    }) result }
{
    op2_gated(rt, alloc, words, shelf, out, err, &Open)
}

/// Does what [`op2`] does, with a gate that is told of what a run does, in the order in which it does it: its phases, and
/// of the run of a plan the items, the messages, the joins and the elements, these on the thread that runs their kernel.
pub fn op2_gated<R: Threads + Sync, F: Shelf, O: Sink, E: Sink, G: Gate + Sync>(
    rt: &R,
    alloc: Global,
    words: &Vec<String>,
    shelf: &mut F,
    out: &mut O,
    err: &mut E,
    gate: &G,
) -> u8
    requires { All (λ name. F.lends shelf.old name) (named_by (map string_bytes words.now.items)) }
    ensures { EndsAsDefined (record {
      words = map string_bytes words.now.items;
      told = F.told shelf.old;
      reads = (F.faults shelf.old, F.faults shelf.new);
      writes = (O.faults out.old, O.faults out.new);
      reports = (E.faults err.old, E.faults err.new);
      out = (O.written out.old, O.written out.new);
      err = (E.written err.old, E.written err.new);
    }) result }
{
    calls_are_complete();
    usage_is_of_words();
    unread_files_are_named();
    calls_show_their_answers();
    calls_report_their_answers();
    others_write_nothing();
    match answer_to(rt, alloc, words, shelf, gate) {
        Ok(answer) => write_answer(&answer, out, err),
        Err(failure) => write_failure(failure, err),
    }
}

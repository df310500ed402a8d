//! The program `op2-tools`: the words of its command line, over real files and streams.
#![tactic(auto)]

use command_words::answer_lines::{Line, report};
use op_outside::{FileShelf, OutSink};
use std::process::ExitCode;
use std::rt::Env;
use std::{env, io};
use tool_command::{report_usage, tools};

fn main(rt: HostRuntime) -> ExitCode {
    let alloc = rt.alloc();
    let mut err = OutSink::new(rt.stderr());
    let words = match words_of(&rt) {
        Ok(words) => words,
        Err(NoWords::NotText) => return ExitCode::from(report_usage(&mut err)),
        Err(NoWords::OutOfMemory) => return ExitCode::from(report(&mut err, Line::OutOfMemory)),
    };
    let mut out = OutSink::new(rt.stdout());
    let mut shelf = FileShelf::new(rt);
    ExitCode::from(tools(&rt, alloc, &words, &mut shelf, &mut out, &mut err))
}

// Why there are no words.
enum NoWords {
    NotText,
    OutOfMemory,
}

// The words of the command line, the program's name first. No command has a word that isn't UTF-8.
fn words_of(rt: &HostRuntime) -> Result<Vec<String>, NoWords> {
    let args = match env::args(rt) {
        Ok(args) => args,
        Err(error) if error.kind() == io::ErrorKind::InvalidData => return Err(NoWords::NotText),
        Err(_) => return Err(NoWords::OutOfMemory),
    };
    let mut words = Vec::new(rt.alloc());
    for word in args {
        if words.push(word).is_err() {
            return Err(NoWords::OutOfMemory);
        }
    }
    Ok(words)
}

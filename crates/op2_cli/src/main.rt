//! The program `op2`: the words of its command line, over real files and streams.
#![tactic(auto)]

use command_words::answer_lines::{Line, report};
use op_outside::{FileShelf, OutSink};
use op2_command::op2;
use std::process::ExitCode;
use std::rt::Env;
use std::{env, io};

fn main(rt: HostRuntime) -> ExitCode {
    let alloc = rt.alloc();
    let mut err = OutSink::new(rt.stderr());
    let words = match words_of(&rt) {
        Ok(words) => words,
        Err(line) => return ExitCode::from(report(&mut err, line)),
    };
    let mut out = OutSink::new(rt.stdout());
    let mut shelf = FileShelf::new(rt);
    ExitCode::from(op2(&rt, alloc, &words, &mut shelf, &mut out, &mut err))
}

// The words of the command line, the program's name first. No command has a word that isn't UTF-8.
fn words_of(rt: &HostRuntime) -> Result<Vec<String>, Line<'static>> {
    let args = match env::args(rt) {
        Ok(args) => args,
        Err(error) if error.kind() == io::ErrorKind::InvalidData => return Err(Line::Usage),
        Err(_) => return Err(Line::OutOfMemory),
    };
    let mut words = Vec::new(rt.alloc());
    for word in args {
        if words.push(word).is_err() {
            return Err(Line::OutOfMemory);
        }
    }
    Ok(words)
}

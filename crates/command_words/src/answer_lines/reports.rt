// Lines that take no memory.

ghost use Rattle.std.specs.Prelude.{◌≡◌, ◌++◌, codes, OnOk, OnErr};
ghost use Rattle.op_outside.specs.Outside.{Rose, appended, AppendsFront};
ghost use Rattle.command_words.specs.Lines.{whole_line};
ghost use Rattle.command_words.specs.Reports.{Stands, report_status, report_line};

use op_outside::{Failed, Sink, write_all_of};

/// A line that is written piece by piece.
#[derive(Clone, Copy)]
pub enum Line<'a> {
    /// Memory ran out: status 1.
    OutOfMemory,
    /// The words are not those of a command: status 2.
    Usage,
    /// The file of that name could not be read: status 3.
    CannotRead(&'a str),
    /// The output could not be written: status 4.
    CannotWrite,
}

/// Writes the line to `err`, whole or a front of it where a write fails, and gives the status that it stands for.
pub fn report<E: Sink>(err: &mut E, line: Line<'_>) -> u8
    ensures status { result ≡ report_status line.entry }
    ensures said { Stands (E.faults err.old, E.faults err.new) (E.written err.old, E.written err.new) (report_line line.entry) }
{
    let (status, text, name) = parts(line);
    let _ = write_line(err, text, name);
    status
}

// The status, the line's text and the name behind it.
fn parts(line: Line<'_>) -> (u8, &[u8], &[u8])
    ensures status { result.0 ≡ report_status line.entry }
    ensures text { whole_line (result.1.now ++ result.2.now) ≡ report_line line.entry }
{
    match line {
        Line::OutOfMemory => (1, b"out of memory", b""),
        Line::Usage => (2, b"usage", b""),
        Line::CannotRead(name) => (3, b"cannot read ", name.as_bytes()),
        Line::CannotWrite => (4, b"cannot write", b""),
    }
}

// Writes a line, up to the first failure.
fn write_line<E: Sink>(err: &mut E, text: &[u8], name: &[u8]) -> Result<(), Failed>
    ensures ok { OnOk result (E.written err.new ≡ appended (E.written err.old) (whole_line (text.now ++ name.now))) }
    ensures failed { OnErr result (Rose (E.faults err.old) (E.faults err.new)) }
    ensures front { OnErr result (AppendsFront (E.written err.old) (whole_line (text.now ++ name.now)) (E.written err.new)) }
{
    write_two(err, b"op2: ", text)?;
    write_two(err, name, b"\n")
}

// Writes two pieces, up to the first failure.
fn write_two<E: Sink>(err: &mut E, a: &[u8], b: &[u8]) -> Result<(), Failed>
    ensures calm { OnOk result (E.faults err.new ≡ E.faults err.old) }
    ensures ok { OnOk result (E.written err.new ≡ appended (E.written err.old) (a.now ++ b.now)) }
    ensures failed { OnErr result (Rose (E.faults err.old) (E.faults err.new)) }
    ensures front { OnErr result (AppendsFront (E.written err.old) (a.now ++ b.now) (E.written err.new)) }
{
    write_all_of(err, a)?;
    write_all_of(err, b)
}

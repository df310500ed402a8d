// The lines on the errors, each appended whole.

ghost use Rattle.std.specs.Prelude.{◌≡◌, ◌++◌, codes, OnOk};
ghost use Rattle.std.specs.Fmt.{decimal};
ghost use Rattle.command_words.specs.Refusal.{BadTarget, BadState, BadStep, EarlyStep, LeftStep};
ghost use Rattle.command_words.specs.Lines.{at_place, numbered, step_name, said_of, line_of};
ghost use Rattle.command_words.specs.Halts.{refusal_of};

use crate::answer_lines::limits::{limit_name, most};
use crate::answer_lines::refusals::Refusal;
use c_tree::Pos;
use op_num::{OutOfMemory, put_u64};
use schedule_steps::Step;

// A place in the source.
fn put_place(out: &mut Vec<u8>, at: Pos) -> Result<(), OutOfMemory>
    ensures { OnOk result (out.new.items ≡ out.old.items ++ at_place at) }
{
    out.extend_from_slice(b" at ")?;
    put_u64(out, at.line as u64)?;
    out.extend_from_slice(b":")?;
    put_u64(out, at.column as u64)
}

/// Appends `what`, a space and `number`. An error is want of memory.
pub fn put_counted(out: &mut Vec<u8>, what: &[u8], number: u64) -> Result<(), OutOfMemory>
    ensures { OnOk result (out.new.items ≡ out.old.items ++ what.now ++ codes " " ++ decimal number) }
{
    out.extend_from_slice(what)?;
    out.extend_from_slice(b" ")?;
    put_u64(out, number)
}

// What is refused, its number and its place.
fn put_numbered(out: &mut Vec<u8>, what: &[u8], number: u8, at: Pos) -> Result<(), OutOfMemory>
    ensures { OnOk result (out.new.items ≡ out.old.items ++ numbered what.now number at) }
{
    put_counted(out, what, number as u64)?;
    put_place(out, at)
}

/// Appends `what`, and behind it the place `at` in a source, as " at LINE:COLUMN". An error is want of memory.
pub fn put_placed(out: &mut Vec<u8>, what: &[u8], at: Pos) -> Result<(), OutOfMemory>
    ensures { OnOk result (out.new.items ≡ out.old.items ++ what.now ++ at_place at) }
{
    out.extend_from_slice(what)?;
    put_place(out, at)
}

// An entry of a map that is no element.
fn put_target(
    out: &mut Vec<u8>,
    at: Pos,
    map: &[u8],
    element: u32,
    place: u32,
) -> Result<(), OutOfMemory>
    ensures { OnOk result (out.new.items ≡ out.old.items ++ said_of (BadTarget at map.now element place)) }
{
    put_numbered(out, b"source bind", 10, at)?;
    put_named(out, b" map ", map)?;
    put_entry(out, element, place)
}

/// Appends `what`, which tells what `name` is of, and behind it `name` itself. An error is want of memory.
pub fn put_named(out: &mut Vec<u8>, what: &[u8], name: &[u8]) -> Result<(), OutOfMemory>
    ensures { OnOk result (out.new.items ≡ out.old.items ++ (what.now ++ name.now)) }
{
    out.extend_from_slice(what)?;
    out.extend_from_slice(name)
}

// The element and the place of an entry of a map.
fn put_entry(out: &mut Vec<u8>, element: u32, place: u32) -> Result<(), OutOfMemory>
    ensures { OnOk result (out.new.items ≡ out.old.items ++ codes " element " ++ decimal element ++ codes " place " ++ decimal place) }
{
    put_counted(out, b" element", element as u64)?;
    put_counted(out, b" place", place as u64)
}

// A number, with a space before it.
fn put_number(out: &mut Vec<u8>, number: u32) -> Result<(), OutOfMemory>
    ensures { OnOk result (out.new.items ≡ out.old.items ++ (codes " " ++ decimal number)) }
{
    out.extend_from_slice(b" ")?;
    put_u64(out, number as u64)
}

// The first word of a step and its three numbers, each with a space before it.
fn put_three(out: &mut Vec<u8>, word: &[u8], a: u32, b: u32, c: u32) -> Result<(), OutOfMemory>
    ensures { OnOk result (out.new.items
        ≡ out.old.items ++ (codes " " ++ word.now ++ codes " " ++ decimal a ++ codes " " ++ decimal b ++ codes " " ++ decimal c)) }
{
    put_named(out, b" ", word)?;
    put_number(out, a)?;
    put_number(out, b)?;
    put_number(out, c)
}

// A step.
fn put_step(out: &mut Vec<u8>, step: Step) -> Result<(), OutOfMemory>
    ensures { OnOk result (out.new.items ≡ out.old.items ++ step_name step) }
{
    match step {
        Step::Send { item, from, to } => put_three(out, b"send", item, from, to),
        Step::Recv { item, rank, from } => put_three(out, b"recv", item, rank, from),
        Step::Begin { item, rank, place } => put_three(out, b"begin", item, rank, place),
        Step::End { item, rank, place } => put_three(out, b"end", item, rank, place),
        Step::Join { item } => put_counted(out, b" join", item as u64),
    }
}

// What is refused, a number and a line.
fn put_on_line(out: &mut Vec<u8>, what: &[u8], number: u8, line: u32) -> Result<(), OutOfMemory>
    ensures { OnOk result (out.new.items ≡ out.old.items ++ (what.now ++ codes " " ++ decimal number ++ codes " line " ++ decimal line)) }
{
    put_counted(out, what, number as u64)?;
    put_counted(out, b" line", line as u64)
}

// The text of a state that tells none.
fn put_bad_state(out: &mut Vec<u8>, number: u8, line: u64) -> Result<(), OutOfMemory>
    ensures { OnOk result (out.new.items ≡ out.old.items ++ said_of (BadState number line)) }
{
    put_counted(out, b"state", number as u64)?;
    put_counted(out, b" line", line)
}

// A step of a schedule, and why it is refused.
fn put_bad_step(out: &mut Vec<u8>, number: u8, line: u32, step: Step) -> Result<(), OutOfMemory>
    ensures { OnOk result (out.new.items ≡ out.old.items ++ said_of (BadStep number line step)) }
{
    put_on_line(out, b"schedule step", number, line)?;
    put_step(out, step)
}

// A step that is missing.
fn put_missing(out: &mut Vec<u8>, missing: Step) -> Result<(), OutOfMemory>
    ensures { OnOk result (out.new.items ≡ out.old.items ++ (codes " needs" ++ step_name missing)) }
{
    out.extend_from_slice(b" needs")?;
    put_step(out, missing)
}

// A step of a schedule that comes too early.
fn put_early(out: &mut Vec<u8>, line: u32, step: Step, missing: Step) -> Result<(), OutOfMemory>
    ensures { OnOk result (out.new.items ≡ out.old.items ++ said_of (EarlyStep line step missing)) }
{
    put_counted(out, b"schedule step 3 line", line as u64)?;
    put_step(out, step)?;
    put_missing(out, missing)
}

// A step that a schedule hasn't.
fn put_left(out: &mut Vec<u8>, line: u32, missing: Step) -> Result<(), OutOfMemory>
    ensures { OnOk result (out.new.items ≡ out.old.items ++ said_of (LeftStep line missing)) }
{
    put_counted(out, b"schedule step 4 line", line as u64)?;
    put_missing(out, missing)
}

// What is refused, without what all lines begin and end with.
fn put_said(out: &mut Vec<u8>, refusal: &Refusal<'_>) -> Result<(), OutOfMemory>
    ensures { OnOk result (out.new.items ≡ out.old.items ++ said_of (refusal_of refusal.now)) }
{
    match refusal {
        Refusal::Usage => out.extend_from_slice(b"usage"),
        Refusal::CannotRead(name) => put_named(out, b"cannot read ", name.as_bytes()),
        Refusal::NoTokens { number, at } => put_numbered(out, b"source lex", *number, *at),
        Refusal::NoTree { at } => put_placed(out, b"source syntax", *at),
        Refusal::TooDeep { at } => put_placed(out, b"source depth", *at),
        Refusal::BadName { number, at } => put_numbered(out, b"source type", *number, *at),
        Refusal::BadBinding { number, at } => put_numbered(out, b"source bind", *number, *at),
        Refusal::BadTarget {
            at,
            map,
            element,
            place,
        } => put_target(out, *at, map.bytes(), *element, *place),
        Refusal::BadAccess { number, at } => put_numbered(out, b"source access", *number, *at),
        Refusal::BadMesh { number, line } => put_on_line(out, b"mesh", *number, *line),
        Refusal::BadCut { item } => put_counted(out, b"state item", *item as u64),
        Refusal::BadState { number, line } => put_bad_state(out, *number, *line),
        Refusal::BadPart(name) => put_named(out, b"partition name ", *name),
        Refusal::BadPartition { number, line } => put_on_line(out, b"partition", *number, *line),
        Refusal::BadPlan { number, line } => put_on_line(out, b"plan", *number, *line),
        Refusal::BadSchedule { number, line } => put_on_line(out, b"schedule text", *number, *line),
        Refusal::BadStep { number, line, step } => put_bad_step(out, *number, *line, *step),
        Refusal::EarlyStep {
            line,
            step,
            missing,
        } => put_early(out, *line, *step, *missing),
        Refusal::LeftStep { line, missing } => put_left(out, *line, *missing),
        Refusal::BadStub { number, at } => put_numbered(out, b"translate", *number, *at),
        Refusal::BeyondLimit { limit, size } => {
            out.extend_from_slice(b"limit ")?;
            put_counted(out, limit_name(*limit), most(*limit))?;
            put_counted(out, b"", *size)
        }
    }
}

/// Appends the line of a refusal. An error is want of memory.
pub fn put_refusal(out: &mut Vec<u8>, refusal: &Refusal<'_>) -> Result<(), OutOfMemory>
    ensures { OnOk result (out.new.items ≡ out.old.items ++ line_of (refusal_of refusal.now)) }
{
    out.extend_from_slice(b"op2: ")?;
    put_said(out, refusal)?;
    out.extend_from_slice(b"\n")
}

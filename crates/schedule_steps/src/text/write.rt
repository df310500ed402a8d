// Writing a schedule text.
ghost use Rattle.std.specs.Prelude.{◌≡◌, ◌≤◌, ◌++◌, [], ◌∷◌, ℕ, List, length, OnOk, IfOk, Ok, codes};
ghost use Rattle.std.specs.Fmt.{decimal};
ghost use Rattle.op_num.specs.Lines.{line_of};
ghost use Rattle.schedule_steps.specs.declared.step.Step.{Step as Steps};
ghost use Rattle.schedule_steps.specs.Spelling.{numbers_of, Spells};
ghost use Rattle.schedule_steps.specs.Reading.{Reads};
ghost use Rattle.schedule_steps.specs.Written.{tokens_of, schedule_text, one_a_line, Fit, AllFit};

use crate::Step;
use crate::text::lines::SCHEDULE_STEPS;
use op_num::texts::lines_are_cut;
use op_num::{OutOfMemory, number_is_read, put_u64};
use std::alloc::Global;

/// The text of these steps: the header, one line for each step in order, and `done`. Where they are no more than
/// [`SCHEDULE_STEPS`], `read_schedule` reads the text again, the first step on line 2, the next on line 3, and so on.
pub fn write_schedule(alloc: Global, steps: &[Step]) -> Result<Vec<u8>, OutOfMemory>
    ensures written { IfOk result (λ v. v.items ≡ schedule_text steps.now) }
    ensures spells { IfOk result (λ v. Spells v.items (one_a_line 2 steps.now)) }
    ensures reads { IfOk result (λ v. length steps.now ≤ SCHEDULE_STEPS → Reads v.items (Ok (one_a_line 2 steps.now))) }
{
    written_is_read();
    let mut out = Vec::new(alloc);
    out.extend_from_slice(b"op2sched 1\n")?;
    for step in steps {
        put_step(&mut out, step)?;
    }
    out.extend_from_slice(b"done\n")?;
    Ok(out)
}

/// A law: the text of steps spells them, one a line from line 2 on, and where they are no more than [`SCHEDULE_STEPS`]
/// it is read as these.
pub fn written_is_read()
    ensures spells { (steps : List Steps) → AllFit steps → Spells (schedule_text steps) (one_a_line 2 steps) }
    ensures reads { (steps : List Steps) → AllFit steps → length steps ≤ SCHEDULE_STEPS
        → Reads (schedule_text steps) (Ok (one_a_line 2 steps)) }
{
    lines_are_cut();
    number_is_read();
}

// The line of a step.
fn put_step(out: &mut Vec<u8>, step: &Step) -> Result<(), OutOfMemory>
    ensures numbers { OnOk result (Fit (numbers_of step.now)) }
    ensures text { OnOk result (out.new.items ≡ out.old.items ++ line_of (tokens_of step.now)) }
{
    match step {
        Step::Send { item, from, to } => {
            out.extend_from_slice(b"send ")?;
            put_three(out, *item, *from, *to)
        }
        Step::Recv { item, rank, from } => {
            out.extend_from_slice(b"recv ")?;
            put_three(out, *item, *rank, *from)
        }
        Step::Begin { item, rank, place } => {
            out.extend_from_slice(b"begin ")?;
            put_three(out, *item, *rank, *place)
        }
        Step::End { item, rank, place } => {
            out.extend_from_slice(b"end ")?;
            put_three(out, *item, *rank, *place)
        }
        Step::Join { item } => {
            out.extend_from_slice(b"join ")?;
            put_u64(out, *item as u64)?;
            out.extend_from_slice(b"\n")
        }
    }
}

// Three numbers, and the end of their line.
fn put_three(out: &mut Vec<u8>, a: u32, b: u32, c: u32) -> Result<(), OutOfMemory>
    ensures { OnOk result (out.new.items ≡ out.old.items ++ line_of (decimal a ∷ decimal b ∷ decimal c ∷ [])) }
{
    put_u64(out, a as u64)?;
    out.extend_from_slice(b" ")?;
    put_u64(out, b as u64)?;
    out.extend_from_slice(b" ")?;
    put_u64(out, c as u64)?;
    out.extend_from_slice(b"\n")
}
